// The beginning of a channel.
ghost use Rattle.std.specs.Prelude.{◌≡◌, IfOk, None, Option, length, map};
ghost use Rattle.ssd_geo.specs.declared.policy_view.PolicyView.{PolicyView};
ghost use Rattle.chan_state.specs.Starting.{HasBegun, MayBegin};

use super::Kept;
use chan_dies::Dies;
use chan_tables::Tables;
use onfi_cmd::Die;
use ssd_geo::{ChannelBase, Memory, SbInfo, SbState};
use std::alloc::Global;

impl<D: Die> Kept<D> {
    /// What a channel keeps at its beginning.
    pub(crate) fn new(
        alloc: Global,
        base: ChannelBase,
        dies: Vec<D>,
        limit: u32,
    ) -> Result<Kept<D>, Memory>
        requires { MayBegin base limit (map D.state dies.items) None }
        ensures { IfOk result (λ kept.
            (view : Option PolicyView) → HasBegun base limit (map D.state dies.items) view kept) }
    {
        let ChannelBase {
            shape,
            session,
            blocks,
            rows,
            sum,
            ..
        } = base;
        let infos = blank_infos(alloc, shape.superblocks)?;
        let dies = Dies::new(alloc, dies, shape, sum.into_vec())?;
        let tables = Tables::new(alloc, shape, session, blocks, rows.as_slice(), limit)?;
        Ok(Kept {
            tables,
            dies,
            infos,
        })
    }
}

// An item for each superblock.
fn blank_infos(alloc: Global, superblocks: u16) -> Result<Vec<SbInfo>, Memory>
    ensures { IfOk result (λ infos. length infos.items ≡ superblocks) }
{
    let blank = SbInfo {
        state: SbState::Free,
        live: 0,
        slots: 0,
        erases: 0,
        pins: 0,
    };
    vec![in alloc; blank; superblocks as usize].map_err(|_| Memory)
}
