// The sessions that are stored, each by the name of its two files: NAME.txt is the text of events, NAME.page the page it gives.

/// A stored session, with the tariff's number and the opening day of its account.
pub(crate) struct Session {
    pub(crate) name: &'static str,
    pub(crate) tariff: u64,
    pub(crate) opening: u64,
}

/// Every stored session.
pub(crate) const SESSIONS: [Session; 25] = [
    Session {
        name: "run-of-eight",
        tariff: 2,
        opening: 0,
    },
    Session {
        name: "too-few-readings-after-a-run",
        tariff: 1,
        opening: 0,
    },
    Session {
        name: "wrong-sort-of-rows",
        tariff: 1,
        opening: 0,
    },
    Session {
        name: "under-by-consumer",
        tariff: 1,
        opening: 0,
    },
    Session {
        name: "under-by-supplier",
        tariff: 2,
        opening: 0,
    },
    Session {
        name: "over-refunded",
        tariff: 3,
        opening: 0,
    },
    Session {
        name: "stopped-previous-three",
        tariff: 3,
        opening: 0,
    },
    Session {
        name: "stopped-later-three",
        tariff: 2,
        opening: 0,
    },
    Session {
        name: "altered-ascertained",
        tariff: 3,
        opening: 0,
    },
    Session {
        name: "altered-not-ascertained",
        tariff: 2,
        opening: 0,
    },
    Session {
        name: "absent-later-three",
        tariff: 2,
        opening: 9_132,
    },
    Session {
        name: "every-event",
        tariff: 1,
        opening: 0,
    },
    Session {
        name: "instalments-of-two-corrections",
        tariff: 2,
        opening: 0,
    },
    Session {
        name: "tariff-1-flat",
        tariff: 1,
        opening: 0,
    },
    Session {
        name: "tariff-2-demand",
        tariff: 2,
        opening: 0,
    },
    Session {
        name: "tariff-3-time-of-day",
        tariff: 3,
        opening: 0,
    },
    Session {
        name: "tariff-4-changeover",
        tariff: 4,
        opening: 300,
    },
    Session {
        name: "methods-refused",
        tariff: 1,
        opening: 0,
    },
    Session {
        name: "method-before-account",
        tariff: 1,
        opening: 0,
    },
    Session {
        name: "category-refused-late-in-a-run",
        tariff: 1,
        opening: 0,
    },
    Session {
        name: "share-too-large",
        tariff: 1,
        opening: 0,
    },
    Session {
        name: "lines-refused",
        tariff: 1,
        opening: 0,
    },
    Session {
        name: "clerk-too-late",
        tariff: 1,
        opening: 0,
    },
    Session {
        name: "two-clerks-one-quarter",
        tariff: 1,
        opening: 0,
    },
    Session {
        name: "takeovers-and-refusals",
        tariff: 1,
        opening: 0,
    },
];
