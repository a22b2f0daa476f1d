ghost use Rattle.std.specs.Prelude.{◌≡◌, ℕ, ◌<◌, List, Option, None, Some, false, true, IsTrue, IsSome, is_some, length, replicate, slice_index_or, slice_set};
ghost use Rattle.mach_base.specs.Machine.{is_text_word};
ghost use Rattle.mach_base.specs.Masks.{has_bit};
ghost use Rattle.hart_ctx.specs.Context.{context_of};
ghost use Rattle.mem_map.specs.Access.{fetch_result};
ghost use Rattle.mem_map.specs.Pages.{KeepsUnmarked, page_length};
ghost use Rattle.hart_step.specs.Execution.{contexts_after, byte_sent, did_by, fault_for, unless_faulted};
ghost use Rattle.bus_plant.specs.Planted.{IsPlanted, after_word, is_planted, planted_mask, raw_pages, unplanted, with_page};

use crate::saved::{
    Saved, address_at, address_of, mask_of, poke_places, poke_saved, restore_word, save_word,
    saved_at, seen_byte,
};
use crate::words::put_byte;
use hart_ctx::Context;
use hart_step::Did;
use mach_base::{Fault, Hart, PLACES, Peek};
use mem_map::Map;
use std::marker::Model;

/// How many breakpoint places there are.
const COUNT: usize = PLACES as usize;

/// Memory with planted words. As a `Peek` it shows true memory.
#[derive(Debug, Drop)]
pub struct Planted {
    raw: Map,
    places: [Option<Saved>; COUNT],
    step: Option<Saved>,
}

impl Model for Planted {
    ghost use Rattle.bus_plant.specs.Planted.{PlantedPages};
    ghost use Rattle.bus_plant.specs.Saved.{planted_code, planted_memory, AreKept};

    ghost Value = { PlantedPages };

    ghost coded = { planted_code };

    ghost view = { λ p. record { planted = planted_memory p.raw.memory p.places p.step; changed = p.raw.changed } };

    ghost invariant = { λ p. AreKept p.raw.memory p.places p.step };
}

impl Planted {
    /// The memory, with nothing planted.
    pub fn new(map: Map) -> Planted
        ensures { result ≡ record { planted = unplanted map.memory; changed = map.changed } }
    {
        Planted {
            raw: map,
            places: [None; COUNT],
            step: None,
        }
    }

    /// Raw memory: the bytes as they are, with `ebreak` in the planted words.
    pub fn raw(&self) -> &Map
        ensures { result.now ≡ raw_pages self.now }
    {
        &self.raw
    }

    /// The mask of the places that are planted.
    pub fn planted(&self) -> u64
        ensures mask { result ≡ planted_mask self.now.planted.places PLACES }
        ensures places { (k : ℕ) → has_bit result k ≡ is_some (slice_index_or self.now.planted.places k None) }
    {
        mask_of(&self.places)
    }

    /// The address at which the place is planted; None where it isn't, or where there is no such place.
    pub fn planted_at(&self, i: u8) -> Option<u64>
        ensures { result ≡ slice_index_or self.now.planted.places i None }
    {
        address_at(&self.places, usize::from(i))
    }

    /// The address of the step word, if there is one.
    pub fn step_word(&self) -> Option<u64>
        ensures { result ≡ self.now.planted.step }
    {
        address_of(self.step)
    }

    /// Whether a word is planted at the address.
    pub fn is_planted(&self, addr: u64) -> bool
        ensures { result ≡ is_planted self.now.planted addr }
    {
        match saved_at(self.step, &self.places, addr) {
            Some(_) => true,
            None => false,
        }
    }

    /// Plants the place at a word of text where nothing is planted; the place is free.
    pub fn plant(&mut self, i: u8, addr: u64)
        requires place { i < length self.old.planted.places }
        requires free { slice_index_or self.old.planted.places i None ≡ None }
        requires text { IsTrue (is_text_word self.old.planted.memory addr) }
        requires unplanted { is_planted self.old.planted addr ≡ false }
        ensures planted { self.new.planted ≡ record self.old.planted { places = slice_set self.old.planted.places i (Some addr) } }
        ensures pages { KeepsUnmarked (raw_pages self.old) (raw_pages self.new) }
    {
        self.places[usize::from(i)] = Some(save_word(&mut self.raw, addr));
    }

    /// Pulls the place, which is planted: its word is as before.
    pub fn pull(&mut self, i: u8)
        requires place { i < length self.old.planted.places }
        requires planted { IsSome (slice_index_or self.old.planted.places i None) }
        ensures planted { self.new.planted ≡ record self.old.planted { places = slice_set self.old.planted.places i None } }
        ensures pages { KeepsUnmarked (raw_pages self.old) (raw_pages self.new) }
    {
        if let Some(saved) = self.places[usize::from(i)] {
            restore_word(&mut self.raw, saved);
            self.places[usize::from(i)] = None;
        }
    }

    /// Plants the step word at a word of text where nothing is planted; there is no step word.
    pub fn plant_step(&mut self, addr: u64)
        requires free { self.old.planted.step ≡ None }
        requires text { IsTrue (is_text_word self.old.planted.memory addr) }
        requires unplanted { is_planted self.old.planted addr ≡ false }
        ensures planted { self.new.planted ≡ record self.old.planted { step = Some addr } }
        ensures pages { KeepsUnmarked (raw_pages self.old) (raw_pages self.new) }
    {
        self.step = Some(save_word(&mut self.raw, addr));
    }

    /// Pulls the step word, which there is.
    pub fn pull_step(&mut self)
        requires { IsSome self.old.planted.step }
        ensures planted { self.new.planted ≡ record self.old.planted { step = None } }
        ensures pages { KeepsUnmarked (raw_pages self.old) (raw_pages self.new) }
    {
        if let Some(saved) = self.step {
            restore_word(&mut self.raw, saved);
            self.step = None;
        }
    }

    /// Executes the word for hart h, one of the contexts, on raw memory, with the effect that it has on true memory; what is
    /// planted stays. Nothing is fetched: the caller gives the word at the hart's pc.
    pub fn exec(&mut self, ctxs: &mut [Context], h: Hart, word: u32) -> Did
        requires { h.0 < length ctxs.old }
        ensures answer { result ≡ did_by (fault_for ctxs.old self.old.planted.memory h.0 word) (byte_sent ctxs.old h.0 word) }
        ensures contexts { ctxs.new ≡ unless_faulted (fault_for ctxs.old self.old.planted.memory h.0 word) ctxs.old (contexts_after ctxs.old self.old.planted.memory h.0 word) }
        ensures memory { self.new.planted ≡ after_word self.old.planted ctxs.old h.0 word }
        ensures pages { KeepsUnmarked (raw_pages self.old) (raw_pages self.new) }
    {
        hart_step::exec(ctxs, &mut self.raw, h, word)
    }

    /// The true word of text at the address, or the fault of the fetch.
    pub fn fetch(&self, addr: u64) -> Result<u32, Fault>
        ensures { result ≡ fetch_result self.now.planted.memory addr }
    {
        match saved_at(self.step, &self.places, addr) {
            Some(word) => Ok(word),
            None => self.raw.fetch(addr),
        }
    }

    /// Takes all marks of pages away; bytes and planted words stay.
    pub fn settle(&mut self)
        ensures { self.new ≡ record self.old { changed = replicate (length self.old.changed) false } }
    {
        self.raw.settle();
    }

    /// Writes a whole page, which there is, and marks it; the text is as long as the page. Nothing is planted, and there is
    /// no step word.
    pub fn put_page(&mut self, number: usize, text: &[u8])
        requires places { (k : ℕ) → slice_index_or self.old.planted.places k None ≡ None }
        requires step { self.old.planted.step ≡ None }
        requires page { number < length self.old.changed }
        requires size { length text.now ≡ page_length self.old.planted.memory.segments number }
        ensures { self.new ≡ with_page self.old number text.now }
    {
        self.raw.put_page(number, text);
    }

    /// The planted words are words of text, and no two are the same, whatever was done. The call does nothing; its contract
    /// says so to callers.
    pub fn keeps_words(&self)
        ensures { IsPlanted self.now.planted }
    {
        let _raw = &self.raw;
    }
}

impl Peek for Planted {
    ghost memory = { λ p. p.planted.memory };

    ghost Rest = { List (Option ℕ) × Option ℕ };

    ghost rest = { λ p. (p.planted.places, p.planted.step) };

    fn peek(&self, addr: u64) -> Option<u8> {
        match self.raw.peek(addr) {
            None => None,
            Some(raw) => {
                let saved = saved_at(self.step, &self.places, addr - addr % 4);
                Some(seen_byte(saved, addr, raw))
            }
        }
    }

    fn poke(&mut self, addr: u64, byte: u8) -> bool {
        let Some(_) = self.raw.peek(addr) else {
            return false;
        };
        match saved_at(self.step, &self.places, addr - addr % 4) {
            None => {
                put_byte(&mut self.raw, addr, byte);
                true
            }
            Some(_) => {
                poke_saved(&mut self.step, addr, byte);
                poke_places(&mut self.places, addr, byte);
                true
            }
        }
    }

    fn is_text(&self, addr: u64) -> bool {
        self.raw.is_text(addr)
    }
}

#[cfg(test)]
mod tests;
