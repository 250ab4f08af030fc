//! The text of a survey of the composed map of all states.

ghost use Rattle.std.specs.Prelude.{◌≡◌, ◌++◌, ◌<◌, IfOk, OnOk};
ghost use Rattle.psi_reply.specs.Surveys.{image_line, image_lines, meeting_text, region_text, survey_text, HasExponent};

use crate::pieces::{push_number_line, push_pieces, push_state};
use itoa::Buffer;
use psi_couple::Coupled;
use psi_exact::{Meeting, Sizes};
use std::alloc::{AllocError, Global};

// Appends the line for the number of states that the last `t` steps leave.
#[tactic(auto, unfolding(crate::specs::Surveys::image_line))]
fn push_image_line(text: &mut Vec<u8>, t: u32, size: u32) -> Result<(), AllocError>
    ensures { OnOk result (text.new.items ≡ text.old.items ++ image_line t size) }
{
    let mut horizon_digits = Buffer::new();
    let horizon = horizon_digits.format(t).as_bytes();
    let mut size_digits = Buffer::new();
    let states = size_digits.format(size).as_bytes();
    push_pieces(text, &[b"image ", horizon, b" ", states, b"\n"])
}

// Appends the lines of all sizes, for the horizons 1, 2, 4, ...
fn push_image_lines(text: &mut Vec<u8>, sizes: &Sizes) -> Result<(), AllocError>
    ensures { OnOk result (text.new.items ≡ text.old.items ++ image_lines 0 sizes.now) }
{
    for k in 0..sizes.len() {
        let horizon = 1u32 << k;
        push_image_line(text, horizon, sizes.get(k))?;
    }
    Ok(())
}

// Appends the line of the least horizon at which the map is constant, with its state, or of the greatest
// horizon where there is none.
#[tactic(auto, unfolding(crate::specs::Surveys::meeting_text, crate::specs::Texts::number_line))]
fn push_meeting(text: &mut Vec<u8>, meeting: &Meeting) -> Result<(), AllocError>
    requires { HasExponent meeting.now }
    ensures { OnOk result (text.new.items ≡ text.old.items ++ meeting_text meeting.now) }
{
    match *meeting {
        Meeting::Constant { horizon, state } => {
            let mut digits = Buffer::new();
            push_pieces(
                text,
                &[b"constant ", digits.format(horizon).as_bytes(), b" "],
            )?;
            push_state(text, &state)?;
            text.push(b'\n')?;
        }
        Meeting::NotConstant { exponent } => {
            let horizon = 1u32 << exponent;
            push_number_line(text, b"not constant within ", horizon)?;
        }
    }
    Ok(())
}

// Appends the line of the least horizon whose region run ends with one state, or that there is none.
#[tactic(auto, unfolding(crate::specs::Surveys::region_text, crate::specs::Texts::number_line))]
fn push_region(text: &mut Vec<u8>, region: &Coupled) -> Result<(), AllocError>
    ensures { OnOk result (text.new.items ≡ text.old.items ++ region_text region.now) }
{
    match *region {
        Coupled::At { horizon, .. } => push_number_line(text, b"region ", horizon),
        Coupled::NotAt { .. } => text.extend_from_slice(b"region none\n"),
    }
}

/// Returns what is printed of a survey: a line with the number of all states; for each of the horizons 1, 2, 4, ..
/// a line with the number of states that are left of them; a line with the least horizon at which one is
/// left and with that state, or with the greatest horizon where there is none; and a line with the least
/// horizon whose region run ends with one state, or that there is none.
///
/// The exponent of a greatest horizon is at most 12. The error comes if an allocation fails.
#[tactic(auto, unfolding(crate::specs::Surveys::survey_text))]
pub fn survey_text(
    alloc: Global,
    states: u32,
    sizes: &Sizes,
    meeting: &Meeting,
    region: &Coupled,
) -> Result<Vec<u8>, AllocError>
    requires { HasExponent meeting.now }
    ensures { IfOk result (λ text. text.items ≡ survey_text states sizes.now meeting.now region.now) }
{
    let mut text = Vec::new(alloc);
    push_number_line(&mut text, b"states ", states)?;
    push_image_lines(&mut text, sizes)?;
    push_meeting(&mut text, meeting)?;
    push_region(&mut text, region)?;
    Ok(text)
}
