// The bench as the host sees it.
ghost use Rattle.bench_wire.specs.BenchView.{wire_view};

use crate::Bench;
use ec_model::{Access, Event};
use ec_types::BusKind;
use ec_wire::{Bus, Wire};
use flash_dev::FlashDev;
use std::alloc::AllocError;

impl<B: Bus + Drop, F: FlashDev> Wire for Bench<B, F> {
    ghost view = { wire_view B.bus };

    fn kind(&self) -> BusKind {
        self.ec.kind()
    }

    fn power(&self) -> bool {
        self.ec.is_on()
    }

    fn access(&mut self, a: Access) -> u8 {
        if self.arms.is_empty() {
            self.step(Event::Access { a })
        } else {
            self.step_behind(Event::Access { a })
        }
    }

    fn wait(&mut self) {
        if self.arms.is_empty() {
            let _ = self.step(Event::Tick);
        } else {
            let _ = self.step_behind(Event::Tick);
        }
    }

    fn reserve(&mut self, n: usize) -> Result<(), AllocError> {
        let Some(entries) = n.checked_add(self.arms.room()) else {
            return Err(AllocError);
        };
        self.journal.reserve(entries)
    }

    fn spare(&self) -> usize {
        self.journal.spare() - self.arms.room()
    }
}
