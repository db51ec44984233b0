//! The versions of a record's file.

ghost use Rattle.std.specs.Prelude.{◌≡◌, ◌+◌, length};
ghost use Rattle.load_record.specs.Head.{version_of};
ghost use Rattle.load_record.specs.File.{digest_size, is_wrong};
ghost use Rattle.load_record.specs.inner.File.{made_digest};

use sha2::{Digest, Sha256};

/// The version of a record's file. Both tell the same of a record.
#[derive(Clone, Copy)]
pub(crate) enum Version {
    /// No digests.
    First,
    /// Before the bytes of each segment stands their SHA-256. This one is written.
    Second,
}

/// What the test of the digest before a segment's bytes tells.
#[derive(Clone, Copy)]
pub(crate) struct Tested {
    /// The digest of the bytes. None in the first version: there is nothing to test.
    pub(crate) made: Option<[u8; 32]>,
    /// Another one stands before the bytes.
    pub(crate) is_wrong: bool,
}

/// What a file of the first version begins with.
pub(crate) const FIRST_MAGIC: &[u8; 8] = b"KXREC001";

/// What a file of the second version begins with.
pub(crate) const SECOND_MAGIC: &[u8; 8] = b"KXREC002";

impl Version {
    /// The version of a file that begins with the magic of either.
    pub(crate) fn of(bytes: &[u8]) -> Version
        ensures { result ≡ version_of bytes.now }
    {
        if bytes.starts_with(FIRST_MAGIC) {
            Version::First
        } else {
            Version::Second
        }
    }

    /// How many bytes stand before those of a segment: the three numbers of its head, and its digest.
    pub(crate) fn front_size(self) -> usize
        ensures { result ≡ 24 + digest_size self }
    {
        match self {
            Version::First => 24,
            Version::Second => 56,
        }
    }

    /// Tests the digest that stands before a segment's bytes.
    pub(crate) fn test(self, digest: &[u8], bytes: &[u8]) -> Tested
        requires { length digest.now ≡ digest_size self }
        ensures made { result.made ≡ made_digest self bytes.now }
        ensures wrong { result.is_wrong ≡ is_wrong self digest.now bytes.now }
    {
        match self {
            Version::First => Tested {
                made: None,
                is_wrong: false,
            },
            Version::Second => {
                let made = Sha256::digest(bytes);
                Tested {
                    made: Some(made),
                    is_wrong: made.as_slice() != digest,
                }
            }
        }
    }
}
