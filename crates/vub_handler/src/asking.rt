//! The small step that calls the device.
ghost use Rattle.std.specs.Prelude.{◌≡◌};
ghost use Rattle.vub_model.specs.DeviceCalls.{is_refused};
ghost use Rattle.vub_vring.specs.Calls.{telling};
ghost use Rattle.vub_handler.specs.Acting.{ActsBy, ActFrame};

use crate::acted::Acted;
use crate::copies::copied_call;
use crate::turns::asked;
use std::alloc::Global;
use vub_base::OutOfMemory;
use vub_model::Small;
use vub_plan::Wired;
use vub_proto::{DeviceOp, DeviceSaid};
use vub_vring::Parts;

/// Whether the device refused its call.
fn is_refused(said: &DeviceSaid) -> bool
    ensures { result ≡ is_refused said.now }
{
    matches!(said, DeviceSaid::Refused(_))
}

/// The device is called.
pub(crate) fn ask<P: Parts>(
    alloc: Global,
    parts: &mut P,
    wired: &Wired,
    op: &DeviceOp,
) -> Result<Acted, OutOfMemory>
    ensures row { ActsBy (telling P.Device.said P.Device.moved) wired.now (Small.Device op.now) result
        (P.state parts.old) (P.state parts.new) }
    ensures frame { ActFrame (P.state parts.old) (P.state parts.new) result }
{
    let op = copied_call(alloc, op)?;
    match parts.device(alloc, op) {
        Ok(said) => Ok(Acted::Made {
            refused: is_refused(&said),
            turn: asked(said),
        }),
        Err(_) => Err(OutOfMemory),
    }
}
