//! The words of a bucket that are lent, or none.
ghost use Rattle.std.specs.Prelude.{◌≡◌, ◌<◌, ◌≤◌, ℕ, IfSome, length, slice_get, slice_set, Option};
ghost use Rattle.sei_words.specs.Words.{BucketWords};
ghost use Rattle.sei_words.specs.LentBucket.{words_of, bucket_of, place_of};

use crate::words::Words;

/// The words of a bucket, if one is lent.
pub trait Lent {
    /// The bucket's words with its number and geometry, or `None` if no bucket is lent.
    ghost lent_bucket: { Self → Option BucketWords };

    /// The number of the bucket that is lent.
    fn bucket(&self) -> Option<u64>
        ensures { result ≡ bucket_of (lent_bucket self.now) };

    /// The word at this address, if there is one.
    fn get(&self, a: u64) -> Option<u64>
        ensures found { result ≡ slice_get (words_of (lent_bucket self.now)) a }
        ensures below { IfSome result (λ _. a < length (words_of (lent_bucket self.now))) };

    /// Writes the word at this address. If there is no such address, no word changes.
    fn set(&mut self, a: u64, w: u64)
        ensures word { a < length (words_of (lent_bucket self.old)) →
            words_of (lent_bucket self.new) ≡ slice_set (words_of (lent_bucket self.old)) a w }
        ensures none { length (words_of (lent_bucket self.old)) ≤ a → words_of (lent_bucket self.new) ≡ words_of (lent_bucket self.old) }
        ensures place { place_of (lent_bucket self.new) ≡ place_of (lent_bucket self.old) };
}

impl Lent for Words {
    ghost use Rattle.std.specs.Prelude.{Some};

    ghost lent_bucket = { λ words. Some words };

    fn bucket(&self) -> Option<u64> {
        Some(self.bucket())
    }

    fn get(&self, a: u64) -> Option<u64> {
        self.get(a)
    }

    fn set(&mut self, a: u64, w: u64) {
        self.set(a, w);
    }
}

/// No bucket: it has no word.
#[derive(Drop)]
pub struct NoBucket;

impl Lent for NoBucket {
    ghost use Rattle.std.specs.Prelude.{None};

    ghost lent_bucket = { λ _. None };

    fn bucket(&self) -> Option<u64> {
        None
    }

    fn get(&self, _a: u64) -> Option<u64> {
        None
    }

    fn set(&mut self, _a: u64, _w: u64) {}
}
