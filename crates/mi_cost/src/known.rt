//! The greatest size that records state of each name.

ghost use Rattle.std.specs.Prelude.{◌≡◌, ◌≤◌, ◌^◌, OnOk, OnErr, IfOk, IsErrOf};
ghost use Rattle.std.specs.FinMap as tree;
ghost use Rattle.mi_script.specs.Scripts.{name_at};
ghost use Rattle.mi_cost.specs.Tallies.{with_record, with_records, is_known, are_known, counted_all};
ghost use Rattle.mi_cost.specs.declared.error.CostError.TheVariants as CostError;

use crate::error::CostError;
use crate::sizes::stated_size;
use crate::total::count_all;
use mi_base::NoMemory;
use mi_image::Image;
use mi_script::Rec;
use std::alloc::Global;
use std::collections::BTreeMap;
use std::marker::Model;

/// For each name the greatest size that a record has stated of it so far (this project's own).
#[derive(Drop)]
pub struct Sizes {
    sizes: BTreeMap<String, u128>,
}

impl Model for Sizes {
    ghost use Rattle.std.specs.FinMap as map;
    ghost use Rattle.std.specs.Coded.{coded_list, coded_ℕ};
    ghost use Rattle.mi_cost.specs.Tallies.{Sizes as Known, sizes_of};

    ghost Value = { Known };

    ghost coded = { map.code (coded_list coded_ℕ) coded_ℕ };

    ghost view = { λ s. sizes_of s.sizes.entries };
}

impl Sizes {
    /// No names, which takes no memory.
    pub fn new(alloc: Global) -> Sizes
        ensures { result ≡ tree.empty }
    {
        Sizes {
            sizes: BTreeMap::new(alloc),
        }
    }

    // What is known of a name.
    fn size(&self, name: &str) -> Option<u128>
        ensures { result ≡ tree.get self.now name.now }
    {
        self.sizes.get(name).copied()
    }

    fn knows(&self, rec: &Rec) -> bool
        ensures { result ≡ is_known self.now (name_at rec.now) }
    {
        self.size(rec.name().as_str()).is_some()
    }

    fn set(&mut self, alloc: Global, name: &str, size: u128) -> Result<(), NoMemory>
        ensures ok { OnOk result (self.new ≡ tree.insert self.old name.now size) }
        ensures err { OnErr result (self.new ≡ self.old) }
    {
        let key = String::from_str(alloc, name)?;
        let _ = self.sizes.insert(key, size)?;
        Ok(())
    }

    fn note(&mut self, alloc: Global, rec: &Rec) -> Result<(), NoMemory>
        ensures { OnOk result (self.new ≡ with_record self.old rec.now) }
    {
        let name = rec.name().as_str();
        let size = self.size(name).unwrap_or(0).max(stated_size(rec));
        self.set(alloc, name, size)?;
        Ok(())
    }

    /// Whether each of the records' names is known. No memory.
    pub fn know(&self, recs: &[Rec]) -> bool
        ensures { result ≡ are_known self.now recs.now }
    {
        recs.iter().all(|rec| self.knows(rec))
    }

    /// Notes what records state, one after the other.
    pub fn note_all(&mut self, alloc: Global, recs: &[Rec]) -> Result<(), NoMemory>
        ensures { OnOk result (self.new ≡ with_records self.old recs.now) }
    {
        for rec in recs {
            self.note(alloc, rec)?;
        }
        Ok(())
    }

    /// What all names cost over an image, with so many entries of the rollback area; TooBig exactly where that passes 64 bits (this
    /// project's own).
    pub fn cost(&self, alloc: Global, image: &Image, entries: u64) -> Result<u64, CostError>
        ensures ok { IfOk result (λ n. n ≡ counted_all image.now entries (tree.entries self.now)) }
        ensures too_big { IsErrOf result CostError.TooBig → 2 ^ 64 ≤ counted_all image.now entries (tree.entries self.now) }
    {
        if self.sizes.is_empty() {
            return Ok(0);
        }
        count_all(alloc, image, entries, &self.sizes)
    }
}
