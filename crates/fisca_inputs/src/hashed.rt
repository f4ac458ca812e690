//! What is found by the hashes of keys.

use crate::page::Page;
use fisca_key_hash::KeyHasher;
use fisca_model::Key;
use indexmap::IndexMap;
use std::hash::BuildHasherDefault;

/// A number of each key.
pub(crate) type Numbers = IndexMap<Key, u32, BuildHasherDefault<KeyHasher>>;

/// Numbers of keys, those of 64 members of one variable and period together.
pub(crate) type Pages = IndexMap<Key, Page, BuildHasherDefault<KeyHasher>>;
