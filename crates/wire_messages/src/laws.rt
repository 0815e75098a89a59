//! What holds of all frames, whoever reads them. These functions do nothing; their clauses are the laws.

ghost use Rattle.std.specs.Prelude.{◌≡◌, ◌<◌, ◌≤◌, ◌++◌, ℕ, List, length, slice_index};
ghost use Rattle.std.specs.List.{flat_map, AllByRecursion};
ghost use Rattle.wire_fields.specs.declared.messages.Framed.{Framed};
ghost use Rattle.wire_fields.specs.declared.operations.Heard as heard_type;
ghost use Rattle.wire_reading.specs.Frame.{spelling};
ghost use Rattle.wire_reading.specs.Hearing.{IsHeard};
ghost use Rattle.wire_fields.specs.declared.refusals.WireRefusal as refusal_type;
ghost use Rattle.wire_reading.specs.Stream.{Hears, HearsOne, IsOpen, Wrong, first_of, wanted};

/// Each message has one spelling, and no spelling begins another: bytes that begin with the spellings of two messages,
/// whatever sides hear them, begin with one message.
pub fn one_spelling()
    ensures { (one other : heard_type.Heard) (a b : Framed) (x y : List ℕ) → IsHeard one a → IsHeard other b
        → spelling a ++ x ≡ spelling b ++ y → (a ≡ b) × (x ≡ y) }
{}

/// The messages heard in bytes are spelled there one after the other, and in front of what is left.
pub fn what_is_heard_is_spelled()
    ensures { (heard : heard_type.Heard) (bytes : List ℕ) (messages : List Framed) (behind : List ℕ)
        → ((i : ℕ) → slice_index bytes i < 256) → Hears heard bytes messages behind
        → (bytes ≡ flat_map spelling messages ++ behind) × AllByRecursion (IsHeard heard) messages }
{}

/// Messages that are spelled one after the other are heard, whatever is behind them.
pub fn what_is_spelled_is_heard()
    ensures { (heard : heard_type.Heard) (messages : List Framed) (behind : List ℕ)
        → AllByRecursion (IsHeard heard) messages → Hears heard (flat_map spelling messages ++ behind) messages behind }
{}

/// Bytes have one reading: no other messages are heard in them, up to a rest that is no whole frame.
pub fn one_reading()
    ensures { (heard : heard_type.Heard) (bytes : List ℕ) (ms ns : List Framed) (x y : List ℕ) → Hears heard bytes ms x
        → IsOpen heard x → Hears heard bytes ns y → IsOpen heard y → (ms ≡ ns) × (x ≡ y) }
{}

/// What was heard of some bytes is heard however they go on, and what is heard of the rest comes behind it: it does not
/// matter how bytes are cut into pieces.
pub fn pieces_do_not_matter()
    ensures { (heard : heard_type.Heard) (bytes more : List ℕ) (ms ns : List Framed) (x y : List ℕ)
        → Hears heard bytes ms x → Hears heard (x ++ more) ns y → Hears heard (bytes ++ more) (ms ++ ns) y }
{}

/// A stream that is refused is refused with the same messages before it and the same refusal, however it was cut: no
/// matter how much of it was given when the refusal came. And it is never heard to an end that is no whole frame.
pub fn one_refusal()
    ensures same { (heard : heard_type.Heard) (bytes more others rest : List ℕ) (ms ns : List Framed) (x y : List ℕ)
        (r s : refusal_type.WireRefusal) → bytes ++ more ≡ others ++ rest
        → Hears heard bytes ms x → first_of heard x ≡ Wrong r
        → Hears heard others ns y → first_of heard y ≡ Wrong s → (ms ≡ ns) × (r ≡ s) }
    ensures refused { (heard : heard_type.Heard) (bytes more : List ℕ) (ms ns : List Framed) (x y : List ℕ)
        (r : refusal_type.WireRefusal) → Hears heard bytes ms x → first_of heard x ≡ Wrong r
        → Hears heard (bytes ++ more) ns y → IsOpen heard y → ⊥ }
{}

/// No byte past a frame: of a piece that is no longer than what is wanted of the frame under way, one message at most
/// is heard, and where one is, it ends with the piece.
pub fn no_byte_past_a_frame()
    ensures { (heard : heard_type.Heard) (partial piece : List ℕ) (messages : List Framed) (behind : List ℕ)
        → IsOpen heard partial → length piece ≤ wanted partial → Hears heard (partial ++ piece) messages behind
        → HearsOne (partial ++ piece) messages behind }
{}
