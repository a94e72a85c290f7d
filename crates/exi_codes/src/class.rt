ghost use Rattle.std.specs.Prelude.{◌≡◌};
ghost use Rattle.exi_gram.specs.Additions.{is_attribute, is_of, is_of_instance};
ghost use Rattle.exi_gram.specs.Terminals.{rule};

use exi_gram::{Class, Production};

/// Whether a production is one of a class.
pub fn is_of(class: Class, production: &Production) -> bool
    ensures { result ≡ is_of class (rule production.now) }
{
    production.on.class().number() == class.number()
}

/// Whether it is one of an attribute whose value is typed, or of any name.
pub fn is_attribute(production: &Production) -> bool
    ensures { result ≡ is_attribute (rule production.now) }
{
    is_of(Class::At, production)
        || (is_of(Class::AtIn, production) || is_of(Class::AtAny, production))
}

/// Whether it is xsi:type or xsi:nil.
pub fn is_of_instance(production: &Production) -> bool
    ensures { result ≡ is_of_instance (rule production.now) }
{
    is_of(Class::XsiType, production) || is_of(Class::XsiNil, production)
}
