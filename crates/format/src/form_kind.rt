// The eight forms of a value, named as in the Rust's `FormKind`: the low four bits of an attribute's number.
ghost use Rattle.std.specs.Prelude.{◌≡◌};
ghost use Rattle.format.specs.FormKind.{form_of, form_number, is_form};

#[derive(Clone, Copy)]
pub enum FormKind {
    Addr,
    Ref,
    Block2,
    Block4,
    Data2,
    Data4,
    Data8,
    String,
    // Low bits 0 and 9 to 15: no form.
    Undefined,
}

// The form of an attribute number: its low four bits.
#[tactic(auto, unfolding(crate::specs::Lookup::lookup, crate::specs::FormKind::forms, crate::specs::FormKind::form_of))]
pub fn form_of(attribute: u16) -> FormKind
    ensures { result ≡ form_of attribute }
{
    match attribute % 16 {
        1 => FormKind::Addr,
        2 => FormKind::Ref,
        3 => FormKind::Block2,
        4 => FormKind::Block4,
        5 => FormKind::Data2,
        6 => FormKind::Data4,
        7 => FormKind::Data8,
        8 => FormKind::String,
        _ => FormKind::Undefined,
    }
}

// The low four bits of a form.
#[tactic(auto, unfolding(crate::specs::FormKind::form_number))]
fn form_number(form: FormKind) -> u32
    ensures { result ≡ form_number form }
{
    match form {
        FormKind::Undefined => 0,
        FormKind::Addr => 1,
        FormKind::Ref => 2,
        FormKind::Block2 => 3,
        FormKind::Block4 => 4,
        FormKind::Data2 => 5,
        FormKind::Data4 => 6,
        FormKind::Data8 => 7,
        FormKind::String => 8,
    }
}

// Do attributes of this number have this form?
pub fn is_form(form: FormKind, number: u16) -> bool
    ensures { result ≡ is_form form number }
{
    form_number(form) == form_number(form_of(number))
}
