// The text that an entry is kept under: the four names, with a space between each two of them. No name has a space in
// it, so no two questions, nor one question in two sessions, have one text.
ghost use Rattle.std.specs.Prelude.{◌≡◌, ◌≤◌, ◌+◌, ◌∷◌, [], ◌++◌, None, length};
ghost use Rattle.cynara_keys.specs.Name.{name_fault};
ghost use Rattle.cynara_keys.specs.parts.Named.{HasNames};
ghost use Rattle.arrayvec.specs.ArrayVec.{array_vec_len};
ghost use Rattle.answer_cache.specs.Cache.{asked_in, key_text};

use arrayvec::ArrayVec;
use cynara_keys::{Name, Question};

/// Four names of 255 bytes, and a space behind each but the last.
pub const MOST_KEY_BYTES: usize = 1023;

/// The key of the question in the session: the four names, with a space between each two. Takes no memory.
pub fn key_of(session: &Name, question: &Question) -> ArrayVec<u8, MOST_KEY_BYTES>
    ensures text { result.items ≡ key_text (asked_in session.now question.now) }
    ensures session { name_fault session.now ≡ None }
    ensures names { HasNames question.now }
{
    let mut key = ArrayVec::new();
    put(&mut key, session.as_slice());
    put_behind_space(&mut key, question.client());
    put_behind_space(&mut key, question.user());
    put_behind_space(&mut key, question.privilege());
    key
}

fn put_behind_space(key: &mut ArrayVec<u8, MOST_KEY_BYTES>, bytes: &[u8])
    requires { array_vec_len key.old + length bytes.now ≤ 1022 }
    ensures items { key.new.items ≡ key.old.items ++ (32 ∷ bytes.now) }
    ensures len { array_vec_len key.new ≡ array_vec_len key.old + (1 + length bytes.now) }
{
    key.push(b' ');
    put(key, bytes);
}

fn put(key: &mut ArrayVec<u8, MOST_KEY_BYTES>, bytes: &[u8])
    requires { array_vec_len key.old + length bytes.now ≤ 1023 }
    ensures items { key.new.items ≡ key.old.items ++ bytes.now }
    ensures len { array_vec_len key.new ≡ array_vec_len key.old + length bytes.now }
{
    match key.try_extend_from_slice(bytes) {
        Ok(()) => {}
        // There is room.
        Err(_) => {}
    }
}
