// What holds of all that is read from a link. The function does nothing; its clause is the law.
ghost use Rattle.std.specs.Prelude.{◌≤◌, ℕ, List, length, Result};
ghost use Rattle.wire_fields.specs.declared.messages.Framed as framed;
ghost use Rattle.wire_fields.specs.declared.operations.Heard as heard;
ghost use Rattle.client_connection.specs.declared.faults.Broken as broken;
ghost use Rattle.client_connection.specs.Reading.{IsRead};

/// Whatever comes of reading a frame, at most 1,048,580 bytes were taken for it: four, and as many as the greatest
/// length that a frame may have.
pub fn no_more_is_taken_than_a_frame()
    ensures { (side : heard.Heard) (result : Result framed.Framed broken.Broken) (bytes : List ℕ)
        → IsRead side result bytes → length bytes ≤ 1048580 }
{}
