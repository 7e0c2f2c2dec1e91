//! How many have a bucket.
use nv_base::OutOfMemory;
use std::alloc::Global;

// Counts, each of the buckets of one remainder. No count is too low, but those of buckets that share a remainder by chance are too high.
#[derive(Drop)]
pub(crate) struct Counts {
    counts: Vec<u8>,
}

impl Counts {
    // Nothing is noted yet, of so many.
    pub(crate) fn new(alloc: Global, many: usize) -> Result<Counts, OutOfMemory> {
        Ok(Counts {
            counts: vec![in alloc; 0; many]?,
        })
    }

    // The place of the count of a bucket.
    fn place(&self, bucket: u64) -> usize {
        let counts = self.counts.len().max(1) as u64;
        (bucket % counts) as usize
    }

    // Notes one more of a bucket.
    pub(crate) fn note(&mut self, bucket: u64) {
        let place = self.place(bucket);
        if let Some(count) = self.counts.get_mut(place) {
            *count = count.saturating_add(1);
        }
    }

    // Whether no more than so many of a bucket are noted.
    pub(crate) fn are_at_most(&self, few: u8, bucket: u64) -> bool {
        match self.counts.get(self.place(bucket)) {
            Some(count) => *count <= few,
            None => false,
        }
    }
}
