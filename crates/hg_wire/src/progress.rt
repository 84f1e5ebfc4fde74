ghost use Rattle.std.specs.Prelude.{◌≡◌, true, IfOk, OnErr};
ghost use Rattle.hg_wire.specs.declared.message.Message.TheVariants.{Have, Rows};
ghost use Rattle.hg_wire.specs.declared.progress.Stage.TheVariants.{AtHead, AtLast, AtName, AtRow, Over};
ghost use Rattle.hg_wire.specs.Ears.{Turns};
ghost use Rattle.hg_wire.specs.Progress.{field, is_open};
ghost use Rattle.hg_wire.specs.Reading.{parcel_of};
ghost use Rattle.hg_wire.specs.Views.{state_of, stopped};

use crate::fields::{Stop, array_of, head_of, last_of, row_of};
use crate::message::{Message, Want, WireFault};
use hg_life::Parcel;
use hg_model::{Bytes, Items, Memory, Name};
use std::alloc::Global;
use std::mem;

/// The field of a message that comes next.
#[derive(Clone, Copy, Debug, PartialEq, Eq)]
pub(crate) enum Stage {
    AtHead,
    /// A name, and so many more after it.
    AtName(u32),
    /// A row, and so many more after it.
    AtRow(u32),
    /// The flag, and the name of the last own row.
    AtLast,
    /// None: the bytes have this fault.
    Shut(WireFault),
    /// None: the message was handed out.
    Over,
}

/// How far a message was read: the field that comes next, and what stood before it.
#[derive(Drop)]
pub(crate) struct Progress {
    pub(crate) alloc: Global,
    pub(crate) want: Want,
    pub(crate) stage: Stage,
    pub(crate) names: Vec<Name>,
    pub(crate) rows: Vec<Bytes>,
}

/// What came of reading the field at the place.
#[derive(Drop)]
pub(crate) enum Turn<'a> {
    /// It is not whole.
    Waits,
    /// It is, and these bytes stand behind it.
    On(&'a [u8]),
    /// The message is whole with it, and these bytes stand behind it.
    Whole(Message, &'a [u8]),
    Wrong(WireFault),
}

/// The field is not whole, or has a fault.
fn stop_at<'a>(progress: &mut Progress, bytes: &'a [u8], stop: Stop) -> Turn<'a>
    requires { field (state_of progress.old) bytes.now ≡ stopped stop }
    ensures { Turns progress.old progress.new bytes.now result }
{
    match stop {
        Stop::Waits => Turn::Waits,
        Stop::Wrong(fault) => {
            progress.stage = Stage::Shut(fault);
            Turn::Wrong(fault)
        }
    }
}

/// The message of the names that were read.
fn take_names(progress: &mut Progress) -> Message
    ensures message { result ≡ Have progress.old.names.items }
    ensures over { progress.new.stage ≡ Over }
{
    progress.stage = Stage::Over;
    let names = mem::replace(&mut progress.names, Vec::new(progress.alloc));
    Message::Have(Items::from_vec(names))
}

/// The message of the rows that were read, and of this name.
fn take_rows(progress: &mut Progress, last: Option<Name>) -> Message
    ensures message { result ≡ Rows (parcel_of progress.old.rows.items last) }
    ensures over { progress.new.stage ≡ Over }
{
    progress.stage = Stage::Over;
    let rows = mem::replace(&mut progress.rows, Vec::new(progress.alloc));
    Message::Rows(Parcel {
        rows: Items::from_vec(rows),
        last,
    })
}

fn turn_head<'a>(progress: &mut Progress, bytes: &'a [u8]) -> Turn<'a>
    requires { progress.old.stage ≡ AtHead }
    ensures { Turns progress.old progress.new bytes.now result }
{
    match head_of(bytes, progress.want) {
        Err(stop) => stop_at(progress, bytes, stop),
        Ok((count, rest)) => match progress.want {
            Want::Have => {
                if count == 0 {
                    Turn::Whole(take_names(progress), rest)
                } else {
                    progress.stage = Stage::AtName(count - 1);
                    Turn::On(rest)
                }
            }
            Want::Rows => {
                if count == 0 {
                    progress.stage = Stage::AtLast;
                    Turn::On(rest)
                } else {
                    progress.stage = Stage::AtRow(count - 1);
                    Turn::On(rest)
                }
            }
        },
    }
}

fn turn_name<'a>(progress: &mut Progress, more: u32, bytes: &'a [u8]) -> Result<Turn<'a>, Memory>
    requires { progress.old.stage ≡ AtName more }
    ensures turns { IfOk result (Turns progress.old progress.new bytes.now) }
    ensures err { OnErr result (state_of progress.new ≡ state_of progress.old) }
{
    match array_of::<48>(bytes) {
        Err(stop) => Ok(stop_at(progress, bytes, stop)),
        Ok((name, rest)) => {
            progress.names.push(*name)?;
            if more == 0 {
                Ok(Turn::Whole(take_names(progress), rest))
            } else {
                progress.stage = Stage::AtName(more - 1);
                Ok(Turn::On(rest))
            }
        }
    }
}

fn turn_row<'a>(progress: &mut Progress, more: u32, bytes: &'a [u8]) -> Result<Turn<'a>, Memory>
    requires { progress.old.stage ≡ AtRow more }
    ensures turns { IfOk result (Turns progress.old progress.new bytes.now) }
    ensures err { OnErr result (state_of progress.new ≡ state_of progress.old) }
{
    match row_of(bytes, progress.rows.len()) {
        Err(stop) => Ok(stop_at(progress, bytes, stop)),
        Ok((row, rest)) => {
            let row = Items::from_vec(Vec::from_slice(progress.alloc, row)?);
            progress.rows.push(row)?;
            if more == 0 {
                progress.stage = Stage::AtLast;
                Ok(Turn::On(rest))
            } else {
                progress.stage = Stage::AtRow(more - 1);
                Ok(Turn::On(rest))
            }
        }
    }
}

fn turn_last<'a>(progress: &mut Progress, bytes: &'a [u8]) -> Turn<'a>
    requires { progress.old.stage ≡ AtLast }
    ensures { Turns progress.old progress.new bytes.now result }
{
    match last_of(bytes) {
        Err(stop) => stop_at(progress, bytes, stop),
        Ok((name, rest)) => Turn::Whole(take_rows(progress, name.copied()), rest),
    }
}

/// Reads the field at the place from the front of these bytes.
pub(crate) fn read_field<'a>(progress: &mut Progress, bytes: &'a [u8]) -> Result<Turn<'a>, Memory>
    requires { is_open progress.old.stage ≡ true }
    ensures turns { IfOk result (Turns progress.old progress.new bytes.now) }
    ensures err { OnErr result (state_of progress.new ≡ state_of progress.old) }
{
    match progress.stage {
        Stage::AtHead => Ok(turn_head(progress, bytes)),
        Stage::AtName(more) => turn_name(progress, more, bytes),
        Stage::AtRow(more) => turn_row(progress, more, bytes),
        Stage::AtLast => Ok(turn_last(progress, bytes)),
        Stage::Shut(fault) => Ok(Turn::Wrong(fault)),
        Stage::Over => Ok(Turn::Waits),
    }
}
