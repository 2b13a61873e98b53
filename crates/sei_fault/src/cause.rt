//! Why a traversal aborts.

/// Why a traversal aborts.
#[derive(Clone, Copy, Debug, PartialEq, Eq)]
pub enum AbortCause {
    /// A phase was to be closed, and the gate was at another number.
    Gate {
        /// How many phases the gate has closed.
        done: u64,
    },
    /// The input or a recorded answer did not match its code, or the input is not the request
    /// that was let in.
    Code,
    /// An address, an index or a bucket is not there.
    Range {
        /// The address, the index or the number of the bucket.
        address: u64,
    },
    /// The index is no step of its phase.
    Table {
        /// That index, from 0.
        index: u64,
    },
    /// The pass made as many statements as a pass may make.
    Budget,
    /// The log was full.
    LogFull,
    /// A list of output words or the output buffer was full.
    OutFull,
    /// The output words do not have their form.
    Output,
    /// No bucket is lent, or it is not the call's bucket.
    Bucket,
    /// A recorded answer is missing or not admissible.
    Notes,
    /// Two entries of the logs differ, or a word and its entry.
    Differs {
        /// The index of the entry, from 0.
        index: u64,
    },
    /// The outputs of the two passes differ.
    Reply,
    /// The copy for the wire is not the message of the first pass's output.
    Wire,
}
