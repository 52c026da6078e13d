//! The word that says where rows are kept.
ghost use Rattle.std.specs.Prelude.{◌≡◌, None, Ok, IfOk, IfSome, MatchBool};
ghost use Rattle.wb_cli.specs.Places.{BeginsAsEtcd, IsPlace, IsStoreWord, word_of};

use crate::places::Place;
use std::alloc::Global;
use std::marker::Model;
use wb_base::{Memory, Text};
use wb_etcd::Store;

/// The word that says where rows are kept, which was read once, seen as that text.
#[derive(Drop)]
pub struct StoreWord {
    place: Place,
}

impl Model for StoreWord {
    ghost use Rattle.std.specs.Prelude.{ℕ, List};
    ghost use Rattle.wb_cli.specs.Places.{IsPlace, word_of};

    ghost Value = { List ℕ };

    ghost view = { λ w. word_of w.place };

    ghost invariant = { λ w. IsPlace w.place };
}

// Whether a word begins as the name of a store of etcd.
#[tactic(auto, using(crate::proofs::PlaceLemmas::begins))]
pub(crate) fn is_etcd(word: &str) -> bool
    ensures { MatchBool result (BeginsAsEtcd word.now) (BeginsAsEtcd word.now → ⊥) }
{
    word.starts_with("etcd://")
}

impl StoreWord {
    // The word, where it is the path of a file or the name of a store of etcd.
    #[tactic(auto, using(crate::proofs::PlaceLemmas::named_so, crate::proofs::PlaceLemmas::no_store))]
    pub(crate) fn read(alloc: Global, word: &str) -> Result<Option<StoreWord>, Memory>
        ensures found { IfOk result (λ read. IfSome read (λ store. (store ≡ word.now) × IsStoreWord store)) }
        ensures none { result ≡ Ok None → IsStoreWord word.now → ⊥ }
    {
        if word.is_empty() {
            return Ok(None);
        }
        if !is_etcd(word) {
            return Ok(Some(StoreWord {
                place: Place::File(Text::from_str(alloc, word)?),
            }));
        }
        match Store::read(alloc, word)? {
            Some(store) => Ok(Some(StoreWord {
                place: Place::Etcd(store),
            })),
            None => Ok(None),
        }
    }

    /// Where rows are kept. A path that begins with `etcd://` is that of no file.
    pub fn place(self) -> Place
        ensures named { word_of result ≡ self }
        ensures apart { IsPlace result }
    {
        self.place
    }
}
