//! Laws of operations. Each is the contract of a function that does nothing.
ghost use Rattle.wire_operation.specs.Operation.{EachGives, OneOperation};

/// States that every path, method and body give an operation.
pub fn each_gives()
    ensures { EachGives }
{}

/// States that they give no other operation.
pub fn one_operation()
    ensures { OneOperation }
{}
