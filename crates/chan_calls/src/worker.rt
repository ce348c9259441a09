// What whole calls need, and the calls.
ghost use Rattle.std.specs.Prelude.{◌≡◌, ◌≤◌, ◌<◌, ◌^◌, [], IfOk, IsTrue, length};
ghost use Rattle.std.specs.List.{list_all};
ghost use Rattle.chan_calls.specs.Ready.{HasBuffers};
ghost use Rattle.chan_calls.specs.Workers.{WorkerState};
ghost use Rattle.retry_ladder.specs.Decoder.{IsCodeOf};
ghost use Rattle.ssd_geo.specs.Limits.{is_level};

use crate::page_decoder::PageDecoder;
use ldpc_decode::{Decoder, Lanes};
use qc_matrix::Code;
use retry_ladder::{Answer, Ask, Ladder};
use ssd_geo::{Items, Memory, Shape};
use std::alloc::Global;
use std::marker::Model;

mod copying;
mod reading;
mod writing;

// Room for one page on its way: its payload, a codeword and its word.
#[derive(Drop)]
struct PageRoom {
    payload: Vec<u8>,
    code: Vec<u8>,
    word: Vec<u8>,
}

/// What whole calls need beside the steps of their channels: the sizes and the session of the drive,
/// its decoder, a ladder, and room for one page on its way. Only the ladder has data of a page.
#[derive(Drop)]
pub struct Worker {
    shape: Shape,
    session: u32,
    decoder: PageDecoder,
    ladder: Ladder,
    room: PageRoom,
}

impl Model for Worker {
    ghost use Rattle.chan_calls.specs.Workers.{WorkerState};
    ghost use Rattle.chan_calls.specs.Ready.{IsReady, worker_state};

    ghost Value = { WorkerState };

    ghost view = { worker_state };

    ghost invariant = { IsReady };
}

// A list of so many zeros.
fn zeros(alloc: Global, count: usize) -> Result<Vec<u8>, Memory>
    ensures { IfOk result (λ list. length list.items ≡ count) }
{
    vec![in alloc; 0; count].map_err(|_| Memory)
}

impl PageRoom {
    fn new(alloc: Global, shape: &Shape) -> Result<PageRoom, Memory>
        ensures { IfOk result (λ room. HasBuffers shape.now room) }
    {
        Ok(PageRoom {
            payload: zeros(alloc, shape.payload_bytes())?,
            code: zeros(alloc, shape.code_bytes())?,
            word: zeros(alloc, shape.word_bytes())?,
        })
    }
}

impl Worker {
    /// Takes all the memory that whole calls of a drive of this shape, session and code need.
    /// Contracts see the lanes nowhere: they change no answer.
    pub fn new(
        alloc: Global,
        shape: Shape,
        session: u32,
        code: Code,
        iterations: u8,
        lanes: Lanes,
        read_levels: Items<i16>,
        step: u16,
    ) -> Result<Worker, Memory>
        requires session { session < 2 ^ 24 }
        requires code { IsCodeOf shape code }
        requires iterations_low { 1 ≤ iterations }
        requires iterations_high { iterations ≤ 64 }
        requires few_levels { length read_levels ≤ 16 }
        requires levels { IsTrue (list_all is_level read_levels) }
        requires step { step ≤ 2047 }
        ensures { IfOk result (λ worker. worker ≡ record {
          shape = shape;
          session = session;
          code = code;
          iterations = iterations;
          levels = read_levels;
          step = step;
          data_bytes = [];
        }) }
    {
        let room = PageRoom::new(alloc, &shape)?;
        let ladder = Ladder::new(alloc, shape, read_levels, step)?;
        let decoder = Decoder::new(alloc, code, iterations, lanes)?;
        Ok(Worker {
            shape,
            session,
            decoder: PageDecoder { decoder },
            ladder,
            room,
        })
    }

    /// The data of the page that the latest ladder recovered. There are none before the first ladder,
    /// nor where it couldn't recover its page.
    pub fn bytes(&self) -> &[u8]
        ensures { result.now ≡ self.now.data_bytes }
    {
        match self.ladder.ask() {
            Ask::At { .. } => &[],
            Ask::Done => match self.ladder.answer() {
                Answer::Recovered { .. } => self.ladder.bytes(),
                Answer::Uncorrectable => &[],
            },
        }
    }

    /// The shape of the drive.
    pub fn shape(&self) -> &Shape
        ensures { result.now ≡ self.now.shape }
    {
        &self.shape
    }
}
