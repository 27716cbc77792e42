// A law over the definitions alone, carried by a function that does nothing.
ghost use Rattle.mk_props.specs.Reading.{PropertiesAreRead};

/// What a line is read as is the property that it is, and a line that is a property is read as it.
/// So no line is two properties.
pub fn property_is_exact()
    ensures { PropertiesAreRead }
{}
