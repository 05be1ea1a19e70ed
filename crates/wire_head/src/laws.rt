//! Laws of what bytes say of a head.
ghost use Rattle.wire_head.specs.Rest.{FieldsEndLines};

/// States that a head with more than 64 fields has that many lines.
///
/// These are the request line and one line for each field.
pub fn fields_end_lines()
    ensures { FieldsEndLines }
{}
