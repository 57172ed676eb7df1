//! Where a value stands in a description.

ghost use Rattle.std.specs.Prelude.{◌≡◌};
ghost use Rattle.pldm_device.specs.Paths.{entry_path, item_of, key_of, table_path, whole_path};

/// The path of a value in a description, as `numeric_effecter[2].max`.
#[derive(Clone, Copy, Debug)]
pub struct Path<'a> {
    /// The list or the table that the value is in; `None` where it is in neither.
    pub list: Option<&'a str>,
    /// Which entry of the list, counted from 0.
    pub entry: Option<usize>,
    /// The key of the entry, of the table or of the whole description.
    pub key: Option<&'a str>,
    /// Which item of an array, counted from 0, and which one of an array in that.
    pub items: [Option<usize>; 2],
}

impl<'a> Path<'a> {
    /// The whole description.
    pub fn whole() -> Path<'a>
        ensures { result ≡ whole_path }
    {
        Path {
            list: None,
            entry: None,
            key: None,
            items: [None, None],
        }
    }

    /// A table of the description.
    pub fn table(name: &'a str) -> Path<'a>
        ensures { result ≡ table_path name.entry }
    {
        Path {
            list: Some(name),
            entry: None,
            key: None,
            items: [None, None],
        }
    }

    /// An entry of a list of the description.
    pub fn entry(list: &'a str, entry: usize) -> Path<'a>
        ensures { result ≡ entry_path list.entry entry }
    {
        Path {
            list: Some(list),
            entry: Some(entry),
            key: None,
            items: [None, None],
        }
    }

    /// A key of what is at this path.
    pub fn key(self, key: &'a str) -> Path<'a>
        ensures { result ≡ key_of key.entry self.entry }
    {
        Path {
            key: Some(key),
            ..self
        }
    }

    /// An item of the array at this path. An array is at most in one other.
    pub fn item(self, item: usize) -> Path<'a>
        ensures { result ≡ item_of item self.entry }
    {
        match self.items {
            [None, _] => Path {
                items: [Some(item), None],
                ..self
            },
            [first, _] => Path {
                items: [first, Some(item)],
                ..self
            },
        }
    }
}
