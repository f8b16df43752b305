//! Laws of the definitions.

ghost use Rattle.reg_script.specs.Ample.{HasOneText};

/// Where memory and space suffice, so that no call is answered 8, or 1450 for space, in the place of what is due, a script
/// on a hive writes one text.
pub fn one_text()
    ensures { HasOneText }
{}
