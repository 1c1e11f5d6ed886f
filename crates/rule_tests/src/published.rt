// A table of results that writes down each cell that is published in it.
ghost use Rattle.std.specs.Prelude.{None};

use crate::texts::push_cell;
use oracle_iface::{CellValue, Claim, Key, Memo, Ticket};
use seqs::Arc;
use std::alloc::{AllocError, Global};
use std::cmp::Ordering;

/// A table that tells no front. It keeps each cell, and the texts of the cells in the order of their publications.
/// Where memory was wanting it writes no more.
#[derive(Drop)]
pub(crate) struct Published {
    cells: Vec<Arc<CellValue>>,
    pub text: String,
    pub written: Result<(), AllocError>,
}

impl Published {
    pub(crate) fn new(alloc: Global) -> Published {
        Published {
            cells: Vec::new(alloc),
            text: String::new(alloc),
            written: Ok(()),
        }
    }

    fn keep(&mut self, value: Arc<CellValue>) -> Result<(), AllocError> {
        push_cell(&mut self.text, value.get())?;
        self.cells.push(value)?;
        Ok(())
    }
}

impl Memo for Published {
    type Origin = ();

    ghost seat = { λ s. 0 };

    ghost shard = { λ k. 0 };

    ghost fronts = { λ s. None };

    ghost origin = { λ s. tt };

    fn claim(&mut self, key: &Arc<Key>) -> Result<Claim, AllocError> {
        if let Some(cell) = self.look(key)? {
            return Ok(Claim::Present(cell));
        }
        let key = key.clone()?;
        Ok(Claim::Granted(Ticket { key, seat: 0 }))
    }

    fn publish(&mut self, ticket: Ticket, value: Arc<CellValue>) {
        let Ticket { key: _, seat: _ } = ticket;
        if self.written.is_ok() {
            self.written = self.keep(value);
        }
    }

    fn release(&mut self, ticket: Ticket) {
        let Ticket { key: _, seat: _ } = ticket;
    }

    fn look(&mut self, key: &Arc<Key>) -> Result<Option<Arc<CellValue>>, AllocError> {
        for cell in &self.cells {
            match cell.get().key.cmp(key) {
                Ordering::Equal => return Ok(Some(cell.clone()?)),
                Ordering::Less | Ordering::Greater => {}
            }
        }
        Ok(None)
    }
}
