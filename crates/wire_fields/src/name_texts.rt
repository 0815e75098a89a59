// Whether a text is a name, seen by several bytes at once. Where its length is no multiple of them, the last load
// overlaps the one before it.
ghost use Rattle.std.specs.Prelude.{◌≡◌, ◌+◌, ◌≤◌, None, length};
ghost use Rattle.std.specs.Bool.{OnTrue};
ghost use Rattle.cynara_keys.specs.Name as name;
ghost use Rattle.wire_fields.specs.parts.Visible.{AreVisible};

use cynara_keys::{MOST_NAME_BYTES, name_fault};
use std::simd::prelude::*;

/// Whether the bytes are a name. Takes no memory. A name of four bytes or more is seen to be one by 4, 8 or 16 bytes at
/// once. All else is gone through byte by byte.
pub fn is_name(bytes: &[u8]) -> bool
    ensures told { result ≡ name.is_name bytes.now }
    ensures name { OnTrue result (name.name_fault bytes.now ≡ None) }
{
    if is_long_name(bytes) {
        return true;
    }
    name_fault(bytes).is_none()
}

// Whether the bytes are a name of four bytes or more; false says nothing. `*` and `#` alone, which are no names, are
// too short.
fn is_long_name(bytes: &[u8]) -> bool
    ensures { OnTrue result (name.name_fault bytes.now ≡ None) }
{
    let count = bytes.len();
    if count < 4 || count > MOST_NAME_BYTES {
        return false;
    }
    are_visible(bytes)
}

#[inline(always)]
fn are_visible(bytes: &[u8]) -> bool
    requires { 4 ≤ length bytes.now }
    ensures { OnTrue result (AreVisible bytes.now 0 (length bytes.now)) }
{
    let count = bytes.len();
    if count >= 16 {
        visible_long(bytes)
    } else if count >= 8 {
        visible_8(bytes, 0) && visible_8(bytes, count - 8)
    } else {
        visible_4(bytes, 0) && visible_4(bytes, count - 4)
    }
}

#[inline(always)]
fn visible_long(bytes: &[u8]) -> bool
    requires { 16 ≤ length bytes.now }
    ensures { OnTrue result (AreVisible bytes.now 0 (length bytes.now)) }
{
    let mut at = 0;
    while bytes.len() - at > 16 {
        if !visible_16(bytes, at) {
            return false;
        }
        at += 16;
    }
    visible_16(bytes, bytes.len() - 16)
}

// Whether the 4 bytes from `at` on may stand in a name: none is a space or below, 127 or above, or a semicolon.
#[inline(always)]
fn visible_4(bytes: &[u8], at: usize) -> bool
    requires { at + 4 ≤ length bytes.now }
    ensures { OnTrue result (AreVisible bytes.now at (at + 4)) }
{
    let lanes = u8x4::from_slice(&bytes[at..]);
    (lanes.simd_le(u8x4::splat(b' '))
        | lanes.simd_ge(u8x4::splat(127))
        | lanes.simd_eq(u8x4::splat(b';'))).to_bitmask()
        == 0
}

// The same of 8 bytes.
#[inline(always)]
fn visible_8(bytes: &[u8], at: usize) -> bool
    requires { at + 8 ≤ length bytes.now }
    ensures { OnTrue result (AreVisible bytes.now at (at + 8)) }
{
    let lanes = u8x8::from_slice(&bytes[at..]);
    (lanes.simd_le(u8x8::splat(b' '))
        | lanes.simd_ge(u8x8::splat(127))
        | lanes.simd_eq(u8x8::splat(b';'))).to_bitmask()
        == 0
}

// The same of 16 bytes.
#[inline(always)]
fn visible_16(bytes: &[u8], at: usize) -> bool
    requires { at + 16 ≤ length bytes.now }
    ensures { OnTrue result (AreVisible bytes.now at (at + 16)) }
{
    let lanes = u8x16::from_slice(&bytes[at..]);
    (lanes.simd_le(u8x16::splat(b' '))
        | lanes.simd_ge(u8x16::splat(127))
        | lanes.simd_eq(u8x16::splat(b';'))).to_bitmask()
        == 0
}
