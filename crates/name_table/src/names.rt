ghost use Rattle.std.specs.Prelude.{◌≡◌, ◌≢◌, ◌<◌, ◌∷◌, [], ◌++◌, ℕ, length, position, slice_get, if◌then◌else◌, IfOk, OnErr, not};
ghost use Rattle.std.specs.List.{list_any, position_or_len};
ghost use Rattle.std.specs.Str.{bytes_eq};

use agm_bits::Memory;
use indexmap::IndexSet;
use std::alloc::Global;
use std::marker::Model;

/// Different names, in the order in which they were first seen. A call takes constant time on average.
#[derive(Debug, Drop)]
pub struct Names {
    alloc: Global,
    table: IndexSet<Vec<u8>>,
}

impl Model for Names {
    ghost use Rattle.std.specs.Prelude.{List, ℕ, map};

    ghost Value = { List (List ℕ) };

    ghost view = { λ n. map (λ k. k.items) n.table.keys };
}

/// Where a name stands in a table.
#[derive(Clone, Copy, Debug, PartialEq, Eq)]
pub struct Place {
    /// Counted from 0.
    pub number: usize,
    /// Whether the name was added by this call.
    pub is_new: bool,
}

impl Names {
    /// A table without a name.
    pub fn new(alloc: Global) -> Names
        ensures { result ≡ [] }
    {
        Names {
            alloc,
            table: IndexSet::new(alloc),
        }
    }

    /// The number of names.
    pub fn len(&self) -> usize
        ensures { result ≡ length self.now }
    {
        self.table.len()
    }

    /// No two names of a table are the same. This is a law, which takes no time.
    pub fn differ(&self)
        ensures { (v w : ℕ) → v < w → w < length self.now → slice_get self.now v ≢ slice_get self.now w }
    {
        let _ = self.table.len();
    }

    /// The place of a name, counted from 0.
    pub fn find(&self, name: &[u8]) -> Option<usize>
        ensures { result ≡ position (λ n. bytes_eq n name.now) self.now }
    {
        self.table.get_index_of(name)
    }

    /// Looks a name up, and adds it at the end where it is not there.
    ///
    /// # Errors
    ///
    /// `Memory` where memory runs out. The table is then unchanged.
    pub fn add(&mut self, name: &[u8]) -> Result<Place, Memory>
        ensures number { IfOk result (λ p. p.number ≡ position_or_len (λ n. bytes_eq n name.now) self.old) }
        ensures fresh { IfOk result (λ p. p.is_new ≡ not (list_any (λ n. bytes_eq n name.now) self.old)) }
        ensures added { IfOk result (λ p. self.new ≡ (if p.is_new then self.old ++ name.now ∷ [] else self.old)) }
        ensures err { OnErr result (self.new ≡ self.old) }
    {
        if let Some(number) = self.find(name) {
            return Ok(Place {
                number,
                is_new: false,
            });
        }
        let key = Vec::from_slice(self.alloc, name)?;
        let (number, is_new) = self.table.insert_full(key)?;
        Ok(Place { number, is_new })
    }
}
