ghost use Rattle.std.specs.Prelude.{◌≡◌, IfOk};

use std::alloc::{AllocError, Global};
use std::marker::Model;

/// A vector that contracts see as the list of its elements.
#[derive(Debug, Drop)]
pub struct ListOf<T> {
    elements: Vec<T>,
}

impl<T> Model for ListOf<T> {
    ghost use Rattle.std.specs.Prelude.{List};
    ghost use Rattle.std.specs.Coded.{coded_list};

    ghost Value = { List T };

    ghost coded = { coded_list T.code };

    ghost view = { λ l. l.elements.items };
}

impl<T> ListOf<T> {
    /// The elements of a vector, which is kept.
    pub fn from_vec(elements: Vec<T>) -> ListOf<T>
        ensures { result ≡ elements.items }
    {
        ListOf { elements }
    }

    /// The vector that holds the elements.
    pub fn into_vec(self) -> Vec<T>
        ensures { result.items ≡ self }
    {
        self.elements
    }

    /// The elements in their order.
    pub fn as_slice(&self) -> &[T]
        ensures { result.now ≡ self.now }
    {
        self.elements.as_slice()
    }
}

impl<T: Copy> ListOf<T> {
    /// A list of equal elements.
    pub fn copied(&self, alloc: Global) -> Result<ListOf<T>, AllocError>
        ensures { IfOk result (λ list. list ≡ self.now) }
    {
        Ok(ListOf {
            elements: Vec::from_slice(alloc, self.elements.as_slice())?,
        })
    }
}
