//! What is tried: the commands of each theme, and the buckets that they are made on.

/// The commands, but the list of the buckets, which asks no bucket.
#[derive(Clone, Copy)]
pub enum Verb {
    BucketInsert,
    BucketGet,
    BucketChange,
    BucketDelete,
    BucketLock,
    BucketRestore,
    List,
    Get,
    Change,
    Delete,
    Put,
    Compose,
    Restore,
    Start,
    Append,
    Finish,
    Cancel,
}

use Verb::{
    Append, BucketChange, BucketDelete, BucketGet, BucketInsert, BucketLock, BucketRestore, Cancel,
    Change, Compose, Delete, Finish, Get, List, Put, Restore, Start,
};

/// A theme. A command comes as often as its verb stands there. Of eight buckets so many are versioned, have a retention
/// policy, and have a soft-delete duration.
pub struct Theme {
    pub name: &'static str,
    pub verbs: &'static [Verb],
    pub names: &'static [&'static str],
    pub versioned: u64,
    pub retained: u64,
    pub soft: u64,
}

const FEW: &[&str] = &["a", "b", "a/b"];

const MANY: &[&str] = &["a", "a/", "a/b", "a/b/c", "a0", "b", "b/a", "é/ß"];

const USUAL: Theme = Theme {
    name: "puts",
    verbs: &[Put, Put, Put, Put, Get, Get, Change, Delete, BucketGet],
    names: FEW,
    versioned: 2,
    retained: 1,
    soft: 4,
};

pub static THEMES: [Theme; 8] = [
    USUAL,
    Theme {
        name: "versions",
        verbs: &[
            Put,
            Put,
            Put,
            Put,
            Get,
            Get,
            Change,
            Change,
            Delete,
            Delete,
            BucketChange,
            List,
        ],
        versioned: 7,
        ..USUAL
    },
    Theme {
        name: "soft deletion",
        verbs: &[
            Put,
            Put,
            Put,
            Delete,
            Delete,
            Restore,
            Restore,
            Get,
            List,
            BucketChange,
            BucketDelete,
            BucketRestore,
        ],
        soft: 7,
        ..USUAL
    },
    Theme {
        name: "holds and retention",
        verbs: &[
            Put,
            Put,
            Put,
            Change,
            Change,
            Change,
            Delete,
            Delete,
            BucketChange,
            BucketLock,
            Get,
            Restore,
        ],
        retained: 6,
        ..USUAL
    },
    Theme {
        name: "listings",
        verbs: &[
            Put, Put, Put, Put, List, List, List, List, Delete, Restore, Change,
        ],
        names: MANY,
        versioned: 4,
        retained: 0,
        ..USUAL
    },
    Theme {
        name: "buckets",
        verbs: &[
            BucketInsert,
            BucketInsert,
            BucketGet,
            BucketChange,
            BucketChange,
            BucketDelete,
            BucketDelete,
            BucketLock,
            BucketRestore,
            BucketRestore,
            Put,
            Delete,
            List,
            Start,
        ],
        retained: 3,
        ..USUAL
    },
    Theme {
        name: "uploads",
        verbs: &[
            Start, Start, Append, Append, Append, Append, Append, Append, Finish, Finish, Cancel,
            Put, Delete, Get,
        ],
        ..USUAL
    },
    Theme {
        name: "composes",
        verbs: &[
            Put, Put, Put, Compose, Compose, Compose, Compose, Delete, Get, Restore, Change, List,
        ],
        ..USUAL
    },
];
