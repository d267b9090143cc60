// The kind of a file, by its first bytes.

ghost use Rattle.std.specs.Prelude.{◌≡◌};
ghost use Rattle.command_line.specs.Kind.{compressed, is_twobit, is_returns, kind_of};

/// What a file is that is no FASTA, as far as its first bytes tell.
#[derive(Clone, Copy)]
pub enum Kind {
    /// FASTA, or nothing that is known here.
    Other,
    /// gzip or bgzip.
    Gzip,
    /// xz.
    Xz,
    /// Zstandard.
    Zstd,
    /// bzip2.
    Bzip2,
    /// 2bit, in either order of bytes.
    TwoBit,
    /// GenBank.
    GenBank,
    /// A text whose lines end in CR alone.
    Returns,
}

// Compressed data.
fn compressed(bytes: &[u8]) -> Kind
    ensures { result ≡ compressed bytes.now }
{
    if bytes.starts_with(&[31, 139]) {
        return Kind::Gzip;
    }
    if bytes.starts_with(&[253, 55, 122, 88, 90, 0]) {
        return Kind::Xz;
    }
    if bytes.starts_with(&[40, 181, 47, 253]) {
        return Kind::Zstd;
    }
    if bytes.starts_with(&[66, 90, 104]) {
        return Kind::Bzip2;
    }
    Kind::Other
}

fn is_twobit(bytes: &[u8]) -> bool
    ensures { result ≡ is_twobit bytes.now }
{
    bytes.starts_with(&[67, 39, 65, 26]) | bytes.starts_with(&[26, 65, 39, 67])
}

// A CR, and no line feed.
fn is_returns(bytes: &[u8]) -> bool
    ensures { result ≡ is_returns bytes.now }
{
    bytes.contains(&13) & !bytes.contains(&10)
}

/// The kind of the file that begins with these bytes.
pub fn kind_of(bytes: &[u8]) -> Kind
    ensures { result ≡ kind_of bytes.now }
{
    if is_twobit(bytes) {
        return Kind::TwoBit;
    }
    if bytes.starts_with(&[76, 79, 67, 85, 83, 32]) {
        return Kind::GenBank;
    }
    if bytes.starts_with(&[62]) & is_returns(bytes) {
        return Kind::Returns;
    }
    compressed(bytes)
}
