//! Numbers, truth values, pointers and file numbers.
use crate::{Carried, Words};
use rec_words::{Ptr, Uid};
use shelf_model::FileNo;

impl Carried for u64 {
    ghost use Rattle.saved_words.specs.Singles.{one_word, IsWord, word_long, word_fits, word_differs};

    ghost count = { 1 };

    ghost words = { one_word };

    ghost is_value = { IsWord };

    fn put(&self, into: &mut Words) {
        into.push(*self);
    }

    fn put_none(into: &mut Words) {
        into.push(0);
    }

    fn get(from: &mut Words) -> Option<u64> {
        from.next()
    }

    fn get_none(from: &mut Words) -> bool {
        from.next() == Some(0)
    }

    ghost long = { word_long };

    ghost fits = { word_fits };

    ghost differ = { word_differs };
}

impl Carried for u32 {
    ghost use Rattle.saved_words.specs.Singles.{one_word, IsHalf, half_long, half_fits, half_differs};

    ghost count = { 1 };

    ghost words = { one_word };

    ghost is_value = { IsHalf };

    fn put(&self, into: &mut Words) {
        into.push(u64::from(*self));
    }

    fn put_none(into: &mut Words) {
        into.push(0);
    }

    fn get(from: &mut Words) -> Option<u32> {
        let word = from.next()?;
        if word > u64::from(u32::MAX) {
            return None;
        }
        Some(word as u32)
    }

    fn get_none(from: &mut Words) -> bool {
        from.next() == Some(0)
    }

    ghost long = { half_long };

    ghost fits = { half_fits };

    ghost differ = { half_differs };
}

impl Carried for bool {
    ghost use Rattle.saved_words.specs.Singles.{bit_word, IsBit, bit_long, bit_fits, bit_differs};

    ghost count = { 1 };

    ghost words = { bit_word };

    ghost is_value = { IsBit };

    fn put(&self, into: &mut Words) {
        into.push(u64::from(*self));
    }

    fn put_none(into: &mut Words) {
        into.push(0);
    }

    fn get(from: &mut Words) -> Option<bool> {
        match from.next()? {
            0 => Some(false),
            1 => Some(true),
            _ => None,
        }
    }

    fn get_none(from: &mut Words) -> bool {
        from.next() == Some(0)
    }

    ghost long = { bit_long };

    ghost fits = { bit_fits };

    ghost differ = { bit_differs };
}

impl Carried for Ptr {
    ghost use Rattle.rec_words.specs.Words.{IsPointer};
    ghost use Rattle.saved_words.specs.Singles.{one_word, pointer_long, pointer_word_fits, pointer_differs};

    ghost count = { 1 };

    ghost words = { one_word };

    ghost is_value = { IsPointer };

    fn put(&self, into: &mut Words) {
        into.push(self.word());
    }

    fn put_none(into: &mut Words) {
        into.push(0);
    }

    fn get(from: &mut Words) -> Option<Ptr> {
        Ptr::from_word(from.next()?)
    }

    fn get_none(from: &mut Words) -> bool {
        from.next() == Some(0)
    }

    ghost long = { pointer_long };

    ghost fits = { pointer_word_fits };

    ghost differ = { pointer_differs };
}

impl Carried for Uid {
    ghost use Rattle.rec_words.specs.Words.{IsNodeWord};
    ghost use Rattle.saved_words.specs.Singles.{one_word, node_long, node_word_fits, node_differs};

    ghost count = { 1 };

    ghost words = { one_word };

    ghost is_value = { IsNodeWord };

    fn put(&self, into: &mut Words) {
        into.push(self.ptr().word());
    }

    fn put_none(into: &mut Words) {
        into.push(0);
    }

    fn get(from: &mut Words) -> Option<Uid> {
        Uid::of(Ptr::from_word(from.next()?)?)
    }

    fn get_none(from: &mut Words) -> bool {
        from.next() == Some(0)
    }

    ghost long = { node_long };

    ghost fits = { node_word_fits };

    ghost differ = { node_differs };
}

impl Carried for FileNo {
    ghost use Rattle.saved_words.specs.Singles.{file_words, IsFileNo, file_long, file_fits, file_differs};

    ghost count = { 2 };

    ghost words = { file_words };

    ghost is_value = { IsFileNo };

    fn put(&self, into: &mut Words) {
        into.push(u64::from(self.step));
        into.push(self.part);
    }

    fn put_none(into: &mut Words) {
        into.push(0);
        into.push(0);
    }

    fn get(from: &mut Words) -> Option<FileNo> {
        let step = u32::get(from)?;
        let part = from.next()?;
        Some(FileNo { step, part })
    }

    fn get_none(from: &mut Words) -> bool {
        u32::get_none(from) && u64::get_none(from)
    }

    ghost long = { file_long };

    ghost fits = { file_fits };

    ghost differ = { file_differs };
}
