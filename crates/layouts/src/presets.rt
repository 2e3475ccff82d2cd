// What a section is read with: no vendor's numbers, or those that complete the Rust's attribute numbers with their four roles; the Rust's sizes.
ghost use Rattle.std.specs.Prelude.{◌≡◌};
ghost use Rattle.layouts.specs.Presets.{is_word, endian_chosen, preset_of};

use format::presets::{mw_roles, no_roles};
use format::settings::{Producer, Settings};
use numbers::Endian;
use numbers::prefix::starts_with;

#[derive(Clone, Copy)]
pub struct Preset {
    pub settings: Settings,
    // How many of the vendor numbers are on the list.
    pub vendors: usize,
}

// Is a text this word?
#[tactic(auto, using(crate::proofs::Laws::Presets::begins, crate::proofs::Laws::Presets::other_length))]
pub fn is_word(text: &[u8], word: &[u8]) -> bool
    ensures { result ≡ is_word text.now word.now }
{
    if text.len() == word.len() {
        starts_with(text, word)
    } else {
        false
    }
}

#[tactic(auto, unfolding(crate::specs::Presets::endian_chosen))]
fn endian_of(little: bool) -> Endian
    ensures { result ≡ endian_chosen little }
{
    if little { Endian::Little } else { Endian::Big }
}

// With `mw` all vendor numbers and their four roles, without none. Erased entries stay out.
#[tactic(auto, unfolding(crate::specs::Presets::preset_of))]
pub fn preset_of(little: bool, mw: bool) -> Preset
    ensures { result ≡ preset_of little mw }
{
    let endian = endian_of(little);
    if mw {
        let roles = mw_roles();
        let settings = Settings {
            endian,
            erased: false,
            producer: Producer::Mwcc,
            roles,
        };
        return Preset {
            settings,
            vendors: 47,
        };
    }
    let roles = no_roles();
    let settings = Settings {
        endian,
        erased: false,
        producer: Producer::Other,
        roles,
    };
    Preset {
        settings,
        vendors: 0,
    }
}
