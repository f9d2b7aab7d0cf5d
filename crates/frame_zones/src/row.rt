//! A list that keeps a sole item within itself.

ghost use Rattle.std.specs.Prelude.{◌≡◌, ◌<◌, length, slice_index_or};
ghost use Rattle.std.specs.Mem.{FitsInMemory};

use std::marker::Model;
use std::ops::Index;
use std::slice;

/// Items in order. Where there is one, it lies in the row itself, so that it is read without a look at
/// where a list lies.
#[derive(Drop)]
pub struct Row<T> {
    sole: Option<T>,
    list: Vec<T>,
}

impl<T> Model for Row<T> {
    ghost use Rattle.frame_zones.specs.Rows.{Items, items_code};

    ghost Value = { Items T };

    ghost coded = { items_code T.code };

    ghost use Rattle.frame_zones.specs.Rows.{items_in, IsSole};

    ghost view = { λ r. items_in r.sole r.list.items };

    ghost invariant = { λ r. IsSole r.sole r.list };
}

impl<T: Drop> Row<T> {
    /// The items of the list.
    pub fn of(mut list: Vec<T>) -> Row<T>
        ensures { result.items ≡ list.items }
    {
        let sole = if list.len() == 1 { list.pop() } else { None };
        Row { sole, list }
    }

    /// Its items as a list.
    pub fn into_list(self) -> Vec<T>
        ensures { result.items ≡ self.items }
    {
        let Row { sole, mut list, .. } = self;
        if let Some(item) = sole {
            list.push_reserved(item);
        }
        list
    }

    /// Its items.
    pub fn as_slice(&self) -> &[T]
        requires { FitsInMemory T.row }
        ensures value { result.now ≡ self.now.items }
    {
        match &self.sole {
            Some(item) => slice::from_ref(item),
            None => self.list.as_slice(),
        }
    }

    /// How many they are.
    #[inline(always)]
    pub fn len(&self) -> usize
        ensures { result ≡ length self.now.items }
    {
        if self.sole.is_some() {
            1
        } else {
            self.list.len()
        }
    }
}

impl<T> Index<usize> for Row<T> {
    type Output = T;

    ghost can_index = { λ r i. i < length r.items };

    ghost index_gives = { λ r i x. x ≡ slice_index_or r.items i x };

    #[inline(always)]
    fn index(&self, place: usize) -> &T
        requires { place < length self.now.items }
        ensures { result.now ≡ slice_index_or self.now.items place result.now }
    {
        match &self.sole {
            Some(item) => item,
            None => &self.list[place],
        }
    }
}
