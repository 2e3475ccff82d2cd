// The settings of a call and their test, refusal 1.
ghost use Rattle.std.specs.Prelude.{◌≡◌};
ghost use Rattle.format.specs.Settings.{settings_hold, vendors_hold, vendor_number, role_holds, role_form, roles_differ, roles_hold};

use crate::attribute_kind::is_named;
use crate::limits::VENDOR_LIMIT;
use crate::lookup::on_list;
use numbers::Endian;

#[derive(Clone, Copy, PartialEq, Eq)]
pub enum Producer {
    Mwcc,
    Gcc,
    Other,
}

// The vendor attribute that plays each part, or 0 for none.
#[derive(Clone, Copy)]
pub struct Roles {
    pub global_ref: u16,
    pub mangled: u16,
    pub overlay_name: u16,
    pub overlay_id: u16,
}

// The vendor list and the 28 sizes stand beside this, as slices, so that ones of a wrong length can be refused.
#[derive(Clone, Copy)]
pub struct Settings {
    pub endian: Endian,
    pub erased: bool,
    pub producer: Producer,
    pub roles: Roles,
}

// May the number stand on a vendor list: has it a form, and does document 01 not name it?
fn vendor_number(n: u16) -> bool
    ensures { result ≡ vendor_number n }
{
    let form = n % 16;
    (1 <= form) & (form <= 8) & !is_named(n)
}

// Strictly rising, and each a number that may stand there.
fn vendors_hold(vendors: &[u16]) -> bool
    ensures { result ≡ vendors_hold 0 vendors.now }
{
    let mut least: u32 = 0;
    for n in vendors {
        if u32::from(*n) < least {
            return false;
        }
        if !vendor_number(*n) {
            return false;
        }
        least = u32::from(*n) + 1;
    }
    true
}

// Absent, or on the list.
fn role_holds(vendors: &[u16], role: u16) -> bool
    ensures { result ≡ role_holds vendors.now role }
{
    (role == 0) | on_list(vendors, role)
}

// Absent, or of this form.
fn role_form(form: u16, role: u16) -> bool
    ensures { result ≡ role_form form role }
{
    (role == 0) | (role % 16 == form)
}

// Two roles are not played by one attribute.
fn roles_differ(a: u16, b: u16) -> bool
    ensures { result ≡ roles_differ a b }
{
    (a == 0) | (a != b)
}

fn roles_hold(vendors: &[u16], roles: Roles) -> bool
    ensures { result ≡ roles_hold vendors.now roles }
{
    let listed = role_holds(vendors, roles.global_ref)
        & role_holds(vendors, roles.mangled)
        & role_holds(vendors, roles.overlay_name)
        & role_holds(vendors, roles.overlay_id);
    let formed = role_form(8, roles.mangled)
        & role_form(8, roles.overlay_name)
        & role_form(6, roles.overlay_id);
    let apart = roles_differ(roles.global_ref, roles.mangled)
        & roles_differ(roles.global_ref, roles.overlay_name)
        & roles_differ(roles.global_ref, roles.overlay_id)
        & roles_differ(roles.mangled, roles.overlay_name)
        & roles_differ(roles.mangled, roles.overlay_id)
        & roles_differ(roles.overlay_name, roles.overlay_id);
    listed & formed & apart
}

// Do the settings hold? Refusal 1 is given exactly where they do not.
pub fn settings_hold(settings: Settings, vendors: &[u16], sizes: &[u32]) -> bool
    ensures { result ≡ settings_hold settings vendors.now sizes.now }
{
    if VENDOR_LIMIT < vendors.len() {
        return false;
    }
    let roles = settings.roles;
    vendors_hold(vendors) & roles_hold(vendors, roles) & (sizes.len() == 28)
}
