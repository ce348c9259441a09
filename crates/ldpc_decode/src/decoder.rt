ghost use Rattle.std.specs.Prelude.{◌≡◌, ◌+◌, ◌/◌, ◌≤◌, All, IfOk, length};
ghost use Rattle.ldpc_decode.specs.Answer.{IsAnswer};
ghost use Rattle.ssd_geo.specs.Codewords.{word_bits};
ghost use Rattle.ssd_geo.specs.Decoding.{decode};
ghost use Rattle.ssd_geo.specs.RowRule.{IsWithin};

use crate::iteration::edge_total;
use crate::search::search;
use crate::{Lanes, Outcome};
use lane_layer::LaneWork;
use qc_matrix::Code;
use ssd_geo::Memory;
use std::alloc::Global;
use std::marker::Model;

/// A decoder of one code, with the memory of a decoding. Contracts see its code and its iteration limit.
#[derive(Drop)]
pub struct Decoder {
    code: Code,
    iterations: u8,
    // Each choice leaves the same numbers: that of one row at a time.
    lanes: Lanes,
    p: Vec<i16>,
    r: Vec<i8>,
    work: LaneWork,
    decision: Vec<u8>,
}

impl Model for Decoder {
    ghost use Rattle.ldpc_decode.specs.Ready.{IsReady, decoder_view};
    ghost use Rattle.ldpc_decode.specs.View.{DecoderView};

    ghost Value = { DecoderView };

    ghost view = { decoder_view };

    ghost invariant = { IsReady };
}

impl Decoder {
    /// Takes all the memory that decodings of this code need.
    pub fn new(alloc: Global, code: Code, iterations: u8, lanes: Lanes) -> Result<Decoder, Memory>
        requires iterations_low { 1 ≤ iterations }
        requires iterations_high { iterations ≤ 64 }
        ensures { IfOk result (λ decoder. decoder ≡ record { code = code; limit = iterations }) }
    {
        let variables = usize::from(code.nb()) * usize::from(code.z());
        let edges = edge_total(&code);
        let p = vec![in alloc; 0i16; variables].map_err(|_| Memory)?;
        let r = vec![in alloc; 0i8; edges].map_err(|_| Memory)?;
        let work = LaneWork::new(alloc, code.z(), u16::from(code.nb()))?;
        let decision = vec![in alloc; 0u8; (variables + 7) / 8].map_err(|_| Memory)?;
        Ok(Decoder {
            code,
            iterations,
            lanes,
            p,
            r,
            work,
            decision,
        })
    }

    /// The code that is decoded.
    pub fn code(&self) -> &Code
        ensures { result.now ≡ self.now.code }
    {
        &self.code
    }

    /// Decodes log-likelihood values, one for each bit of a word: one below 0 speaks for a 1, any other for a 0.
    pub fn decode(&mut self, values: &[i8], word: &mut [u8]) -> Outcome
        requires values_len { length values.now ≡ word_bits self.old.code }
        requires values_within { All (IsWithin 127) values.now }
        requires word_len { length word.old ≡ (word_bits self.old.code + 7) / 8 }
        ensures answer { IsAnswer (decode self.old.code self.old.limit values.now) word.old result word.new }
        ensures same { self.new ≡ self.old }
    {
        let mut done = 0;
        search(
            &self.code,
            self.iterations,
            self.lanes,
            values,
            self.p.as_mut_slice(),
            self.r.as_mut_slice(),
            &mut self.work,
            self.decision.as_mut_slice(),
            word,
            &mut done,
        )
    }
}

#[cfg(test)]
mod tests;
