//! The master list.

ghost use Rattle.std.specs.Prelude.{◌≡◌, ◌+◌, ◌<◌, ◌≤◌, ◌∷◌, length, map, slice_get};
ghost use Rattle.gm_image.specs.Views.{program, command};
ghost use Rattle.gm_image.specs.Rows.{CommandRow, MasterRow, command_rows};
ghost use Rattle.gm_image.specs.Jumps.{jumps_forward, exits_behind, goes_back, ends_last};
ghost use Rattle.gm_image.specs.Soundness.{broken_rule};
ghost use Rattle.gm_verify.specs.Checks.{Checks};

use crate::fits::command_fits;
use crate::leaves::Test;
use crate::ranges::{command_holds, command_keeps_range};
use crate::stops::{VerifyStop, next_line};
use gm_image::{Image, ImageRule, MasterLine};

// Whether a line of the list goes forward to a line of it, if it may jump.
fn jumps_forward(image: &Image, index: usize, master_line: &MasterLine) -> bool
    ensures { result ≡ jumps_forward (program image.now) index (command master_line.now) }
{
    match master_line {
        MasterLine::Jump(to) | MasterLine::Test(to, _) | MasterLine::Turn(to, _) => {
            index < *to as usize && (*to as usize) < image.master.len()
        }
        MasterLine::SetGlobal(_, _)
        | MasterLine::Step(_)
        | MasterLine::Back(_)
        | MasterLine::Finish => true,
    }
}

// Whether a line is a loop whose exit is greater than an index.
fn exits_behind(image: &Image, index: usize, head: usize) -> bool
    ensures { result ≡ exits_behind index (slice_get (program image.now).master head) }
{
    match image.master.as_slice().get(head) {
        Some(MasterLine::Turn(exit, _)) => index < *exit as usize,
        _ => false,
    }
}

// Whether a line of the list goes back to a loop that has it inside, if it goes back.
fn goes_back(image: &Image, index: usize, master_line: &MasterLine) -> bool
    ensures { result ≡ goes_back (program image.now) index (command master_line.now) }
{
    match master_line {
        MasterLine::Back(head) => {
            (*head as usize) < index && exits_behind(image, index, *head as usize)
        }
        MasterLine::SetGlobal(_, _)
        | MasterLine::Step(_)
        | MasterLine::Jump(_)
        | MasterLine::Test(_, _)
        | MasterLine::Turn(_, _)
        | MasterLine::Finish => true,
    }
}

// Whether a line of the list is `end` exactly where it is the last one.
fn ends_last(image: &Image, index: usize, master_line: &MasterLine) -> bool
    requires { index < length image.now.master }
    ensures { result ≡ ends_last (program image.now) (CommandRow index (command master_line.now)) }
{
    let count = image.master.len();
    let is_last = index + 1 == count;
    match master_line {
        MasterLine::Finish => is_last,
        MasterLine::SetGlobal(_, _)
        | MasterLine::Step(_)
        | MasterLine::Jump(_)
        | MasterLine::Test(_, _)
        | MasterLine::Turn(_, _)
        | MasterLine::Back(_) => !is_last,
    }
}

// The least rule that a line of the list breaks.
fn command_rule(image: &Image, index: usize, master_line: &MasterLine) -> Option<ImageRule>
    requires { index < length image.now.master }
    ensures { result ≡ broken_rule (program image.now) (CommandRow index (command master_line.now)) }
{
    if !command_keeps_range(image, master_line) {
        return Some(ImageRule::I1);
    }
    if !command_fits(image, master_line) {
        return Some(ImageRule::I2);
    }
    if !jumps_forward(image, index, master_line) {
        return Some(ImageRule::I3);
    }
    if !goes_back(image, index, master_line) {
        return Some(ImageRule::I4);
    }
    if !ends_last(image, index, master_line) {
        return Some(ImageRule::I5);
    }
    if !command_holds(Test::InMaster, master_line) {
        return Some(ImageRule::I7);
    }
    None
}

// Checks the lines of the list, of which the first has a number in the text.
fn check_commands(image: &Image, commands: &[MasterLine], number: u64) -> Result<u64, VerifyStop>
    requires same { commands.now ≡ image.now.master }
    requires room { number + length commands.now ≤ 4294967296 }
    ensures { Checks (program image.now) number (command_rows 0 (map command commands.now)) result }
{
    let mut next = number;
    for index in 0..commands.len() {
        let rule = command_rule(image, index, &commands[index]);
        next = next_line(rule, next)?;
    }
    Ok(next)
}

// The least rule that the list's header breaks.
fn master_rule(image: &Image) -> Option<ImageRule>
    ensures { result ≡ broken_rule (program image.now) MasterRow }
{
    if image.master.is_empty() {
        return Some(ImageRule::I5);
    }
    None
}

// Checks the list with its header, which has a number in the text.
pub fn check_master(image: &Image, number: u64) -> Result<u64, VerifyStop>
    requires { number + length image.now.master < 4294967296 }
    ensures { Checks (program image.now) number (MasterRow ∷ command_rows 0 (program image.now).master) result }
{
    let next = next_line(master_rule(image), number)?;
    check_commands(image, image.master.as_slice(), next)
}
