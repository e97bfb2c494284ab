//! The names of the files that the programs keep.

/// The names of a store's file, in the folder where it lies.
#[derive(Clone, Copy)]
pub struct StoreNames {
    /// The file that is the store.
    pub store: &'static str,

    /// What a new store is called until it is whole.
    pub unfinished: &'static str,
}

/// The names of the meter's store.
pub(crate) const METER: StoreNames = StoreNames {
    store: "taxi.store",
    unfinished: "taxi.store.new",
};

/// The names of the hiring log's store.
pub(crate) const LOG: StoreNames = StoreNames {
    store: "taxi.log",
    unfinished: "taxi.log.new",
};

/// The names of both. No output may have one of these four.
pub(crate) const KEPT: [StoreNames; 2] = [METER, LOG];
