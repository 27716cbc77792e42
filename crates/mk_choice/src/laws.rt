// Laws over the definitions alone, each carried by a function that does nothing.
ghost use Rattle.mk_choice.specs.Codes.{NextIsFirst, NoValidBeginsAnother, NoneBetween, NoneIsLeft};

/// A code that is taken is the first of those left, and the others are left behind it; where none
/// is taken none was left. Between two codes that are taken one after the other stands no valid
/// code.
pub fn codes_are_taken_in_order()
    ensures first { NextIsFirst }
    ensures none { NoneIsLeft }
    ensures between { NoneBetween }
{}

/// No valid code begins another.
pub fn no_valid_code_begins_another()
    ensures { NoValidBeginsAnother }
{}
