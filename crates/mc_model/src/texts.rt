//! The fixed texts of replies, and their numbers.
ghost use Rattle.std.specs.Prelude.{◌≡◌, ◌<◌};
ghost use Rattle.mc_model.specs.Texts.{text_count, text_line};

/// `STORED`
pub const STORED: u8 = 0;

/// `NOT_STORED`
pub const NOT_STORED: u8 = 1;

/// `EXISTS`
pub const EXISTS: u8 = 2;

/// `NOT_FOUND`
pub const NOT_FOUND: u8 = 3;

/// `DELETED`
pub const DELETED: u8 = 4;

/// `TOUCHED`
pub const TOUCHED: u8 = 5;

/// `OK`
pub const OKAY: u8 = 6;

/// `END`
pub const END: u8 = 7;

/// `ERROR`
pub const ERROR: u8 = 8;

/// `VERSION 1.0.0-sei`
pub const VERSION: u8 = 9;

/// `CLIENT_ERROR bad command line format`
pub const BAD_LINE_FORMAT: u8 = 10;

/// `CLIENT_ERROR bad data chunk`
pub const BAD_DATA_CHUNK: u8 = 11;

/// `CLIENT_ERROR invalid numeric delta argument`
pub const BAD_DELTA: u8 = 12;

/// `CLIENT_ERROR cannot increment or decrement non-numeric value`
pub const NOT_A_NUMBER: u8 = 13;

/// `CLIENT_ERROR line too long`
pub const LINE_TOO_LONG: u8 = 14;

/// `SERVER_ERROR object too large for cache`
pub const OBJECT_TOO_LARGE: u8 = 15;

/// `SERVER_ERROR out of memory storing object`
pub const OUT_OF_MEMORY: u8 = 16;

/// How many texts there are.
pub const COUNT: u8 = 17;

/// The line of the fixed text with this number.
#[tactic(auto, unfolding(crate::specs::Texts::text_line))]
pub fn text(number: u8) -> &'static [u8]
    requires { number < text_count }
    ensures { result.now ≡ text_line number }
{
    match number {
        STORED => b"STORED\r\n",
        NOT_STORED => b"NOT_STORED\r\n",
        EXISTS => b"EXISTS\r\n",
        NOT_FOUND => b"NOT_FOUND\r\n",
        DELETED => b"DELETED\r\n",
        TOUCHED => b"TOUCHED\r\n",
        OKAY => b"OK\r\n",
        END => b"END\r\n",
        ERROR => b"ERROR\r\n",
        VERSION => b"VERSION 1.0.0-sei\r\n",
        BAD_LINE_FORMAT => b"CLIENT_ERROR bad command line format\r\n",
        BAD_DATA_CHUNK => b"CLIENT_ERROR bad data chunk\r\n",
        BAD_DELTA => b"CLIENT_ERROR invalid numeric delta argument\r\n",
        NOT_A_NUMBER => b"CLIENT_ERROR cannot increment or decrement non-numeric value\r\n",
        LINE_TOO_LONG => b"CLIENT_ERROR line too long\r\n",
        OBJECT_TOO_LARGE => b"SERVER_ERROR object too large for cache\r\n",
        _ => b"SERVER_ERROR out of memory storing object\r\n",
    }
}
