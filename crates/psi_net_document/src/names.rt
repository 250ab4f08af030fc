//! Names in a document.

ghost use Rattle.std.specs.Prelude.{◌≡◌, false, OnOk};
ghost use Rattle.std.specs.List.{list_any};
ghost use Rattle.std.specs.Str.{bytes_eq};
ghost use Rattle.toml.specs.View.{view};
ghost use Rattle.psi_net_document.specs.Refusal.{Gives};
ghost use Rattle.psi_net_document.specs.Values.{seen, required};
ghost use Rattle.psi_net_document.specs.Names.{name_in, unless_taken};

use crate::keys::{present, text_in};
use crate::read;
use crate::refusals::{NetCause, NetRefusal, Place};
use indexmap::IndexSet;
use psi_net_model::{Name, name_of};
use toml::Value;

// A string in the form of a name.
#[tactic(auto, unfolding(crate::specs::Names::name_in))]
fn name_in(place: Place, key: &str, value: &Value) -> Result<Name, NetRefusal>
    ensures { Gives (λ name. name) result (name_in place key.now (view value.now)) }
{
    let text = read!(text_in(place, key, value));
    match name_of(text) {
        Some(name) => Ok(name),
        None => Err(NetCause::OutOfRange.at_key(place, key)),
    }
}

/// Reads a required string in the form of a name.
///
/// # Errors
///
/// Those of [`present`](crate::present) and [`text_in`](crate::text_in), and `OutOfRange` at the key where
/// the string is no name.
pub fn required_name(place: Place, key: &str, value: Option<&Value>) -> Result<Name, NetRefusal>
    ensures { Gives (λ name. name) result (required place key.now (name_in place key.now) (seen value.entry)) }
{
    let value = read!(present(place, key, value));
    name_in(place, key, value)
}

/// No earlier table of the section has the name.
///
/// # Errors
///
/// `DuplicateName` at the key `name` where one has it.
#[tactic(auto, unfolding(crate::specs::Names::unless_taken))]
pub fn unless_taken(place: Place, earlier: &IndexSet<Name>, name: Name) -> Result<(), NetRefusal>
    ensures value { Gives (λ _. tt) result (unless_taken place earlier.now.keys name) }
    ensures fresh { OnOk result (list_any (bytes_eq name) earlier.now.keys ≡ false) }
{
    if earlier.contains(&name) {
        Err(NetCause::DuplicateName.at_key(place, "name"))
    } else {
        Ok(())
    }
}
