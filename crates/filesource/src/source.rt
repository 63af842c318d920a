// A determinant file that was checked.
ghost use Rattle.std.specs.Prelude.{◌≡◌};
ghost use Rattle.std.specs.Result.{ForOk};
ghost use Rattle.detfile.specs.Files.{judged};
ghost use Rattle.detfile.specs.Names.{columns_in};
ghost use Rattle.filesource.specs.Parts.{columns, values};
ghost use Rattle.filesource.specs.Contents.{counted};

use detfile::check::check_file;
use detfile::columns::Columns;
use detfile::names::cut_names;
use detfile::refusal::FileRefusal;

// What the check finds in an accepted file: how many value lines it has, its columns, and the value lines.
#[derive(Clone, Copy)]
pub(crate) struct Content<'a> {
    pub(crate) count: u32,
    pub(crate) columns: Columns,
    pub(crate) values: &'a [u8],
}

// The caller's bytes with what the check found in them, or why it refuses them.
#[derive(Clone, Copy)]
pub struct FileSource<'a> {
    pub(crate) bytes: &'a [u8],
    pub(crate) content: Result<Content<'a>, FileRefusal>,
    ghost told: { counted content ≡ judged bytes.now },
    ghost headed: { ForOk content (λ c. columns_in c.columns ≡ columns bytes.now) },
    ghost valued: { ForOk content (λ c. c.values.now ≡ values bytes.now) },
}

// What is found in the bytes.
fn content_of(bytes: &[u8]) -> Result<Content<'_>, FileRefusal>
    ensures told { counted result ≡ judged bytes.now }
    ensures headed { ForOk result (λ c. columns_in c.columns ≡ columns bytes.now) }
    ensures valued { ForOk result (λ c. c.values.now ≡ values bytes.now) }
{
    let count = check_file(bytes)?;
    let (columns, values) = cut_names(bytes)?;
    Ok(Content {
        count,
        columns,
        values,
    })
}

impl<'a> FileSource<'a> {
    ghost use Rattle.detfile.specs.Files.{checked};
    ghost use Rattle.detfile.specs.Refusals.{told};

    // Checks the bytes, once.
    pub fn new(bytes: &'a [u8]) -> FileSource<'a>
        ensures { result.bytes.now ≡ bytes.now }
    {
        FileSource {
            bytes,
            content: content_of(bytes),
        }
    }

    // How many value lines the file has, or why it is refused.
    pub fn verdict(&self) -> Result<u32, FileRefusal>
        ensures { told result ≡ checked self.now.bytes.now }
    {
        self.content.map(|content| content.count)
    }
}
