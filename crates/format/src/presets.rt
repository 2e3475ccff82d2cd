// What a section of the Rust's kind is read with. The numbers stand here once for all programs; the functions say that they are those of specs/Presets.antt.
ghost use Rattle.std.specs.Prelude.{◌≡◌};
ghost use Rattle.format.specs.Presets.{mw_vendors, mw_roles, no_roles, rust_sizes};

use crate::settings::Roles;

// The numbers that complete the Rust's attribute numbers, rising.
pub const MW_VENDORS: [u16; 47] = [
    0x0293, 0x0303, 0x2008, 0x2013, 0x2022, 0x2038, 0x2043, 0x2053, 0x2063, 0x2073, 0x2083, 0x2093,
    0x20a3, 0x20b3, 0x20c3, 0x20d3, 0x20e3, 0x20f3, 0x2103, 0x2113, 0x2123, 0x2133, 0x2143, 0x2153,
    0x2163, 0x2173, 0x2183, 0x2193, 0x21a3, 0x21b3, 0x21c3, 0x21d3, 0x2243, 0x2253, 0x2263, 0x2273,
    0x2283, 0x2296, 0x22a8, 0x2303, 0x2314, 0x2338, 0x2343, 0x8006, 0x8016, 0x8041, 0x8051,
];

// The vendor list.
pub fn mw_vendors() -> [u16; 47]
    ensures { result ≡ mw_vendors }
{
    MW_VENDORS
}

// The four numbers on it that play a role.
pub fn mw_roles() -> Roles
    ensures { result ≡ mw_roles }
{
    Roles {
        global_ref: 0x2022,
        mangled: 0x2008,
        overlay_name: 0x22a8,
        overlay_id: 0x2296,
    }
}

// No number plays one.
pub fn no_roles() -> Roles
    ensures { result ≡ no_roles }
{
    Roles {
        global_ref: 0,
        mangled: 0,
        overlay_name: 0,
        overlay_id: 0,
    }
}

// The Rust's sizes, in the order of the fundamental types; `other` is that of the five for which it has none.
pub fn rust_sizes(other: u32) -> [u32; 28]
    ensures { result ≡ rust_sizes other }
{
    [
        2, 1, 1, 1, 2, 2, 2, 4, 4, 4, 4, 4, 4, 4, 4, 8, other, other, other, 0, 1, other, other, 8,
        8, 8, 16, 8,
    ]
}
