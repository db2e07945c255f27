//! A sample of what a crash may leave of files in memory, for tests.
ghost use Rattle.std.specs.Prelude.{◌≡◌, ℕ, List, length, nat_lt, Some, None, IfOk, OnOk};
ghost use Rattle.std.specs.BTreeMap.{IsOrdered};
ghost use Rattle.std.specs.Ordering.{nat_cmp};
ghost use Rattle.std.specs.Cmp.Lexicographic.{slice_cmp};
ghost use Rattle.clog_disk.specs.InMemory.{state_of, with_file};
ghost use Rattle.clog_disk.specs.Sample.{lasting_part, zeroed, left_at, sample_of};

use crate::stored::File;
use clog_base::Name;
use std::alloc::{AllocError, Global};
use std::collections::BTreeMap;

/// What is left of the files in one image of a sample.
#[derive(Clone, Copy)]
pub(crate) enum Left {
    /// All that was written.
    Written,
    /// What lasts, of each file.
    Lasting,
    /// Of the file of this name what lasts of it, and of the others all that was written.
    Cut(Name),
    /// The same, and zeros in the place of what does not last.
    Zeroed(Name),
}

impl File {
    fn lasting_part(&self) -> &[u8]
        ensures { result.now ≡ lasting_part self.now }
    {
        &self.bytes[..self.synced.min(self.bytes.len())]
    }

    // What lasts of it, and zeros in the place of what does not last.
    fn zeroed(&self, alloc: Global) -> Result<Vec<u8>, AllocError>
        ensures { IfOk result (λ bytes. bytes.items ≡ zeroed self.now) }
    {
        let lasting = self.lasting_part();
        let mut bytes = lasting.to_vec(alloc)?;
        let zeros = Vec::from_elem(alloc, 0u8, self.bytes.len() - lasting.len())?;
        bytes.extend_from_slice(&zeros)?;
        Ok(bytes)
    }

    fn has_more_than_lasts(&self) -> bool
        ensures { result ≡ nat_lt self.now.synced (length self.now.bytes) }
    {
        self.synced < self.bytes.len()
    }

    // What is left of it under this name, lasting, and nothing where it is gone.
    fn left(&self, alloc: Global, name: &Name, left: &Left) -> Result<Option<File>, AllocError>
        ensures { IfOk result (λ file. file ≡ left_at left.now name.now (Some self.now)) }
    {
        match left {
            Left::Lasting if !self.sure => Ok(None),
            Left::Lasting => Ok(Some(File::lasting_of(alloc, self.lasting_part())?)),
            Left::Cut(at) if at == name => Ok(Some(File::lasting_of(alloc, self.lasting_part())?)),
            Left::Zeroed(at) if at == name => {
                let bytes = self.zeroed(alloc)?;
                Ok(Some(File::lasting_of(alloc, &bytes)?))
            }
            Left::Written | Left::Cut(_) | Left::Zeroed(_) => {
                Ok(Some(File::lasting_of(alloc, self.as_slice())?))
            }
        }
    }
}

// Puts what is left of a file at its name, where nothing stands yet.
fn put_left(
    alloc: Global,
    image: &mut BTreeMap<Name, File>,
    left: &Left,
    name: &Name,
    file: &File,
) -> Result<(), AllocError>
    requires { state_of image.old.entries name.now ≡ None }
    ensures { OnOk result (state_of image.new.entries
        ≡ with_file (state_of image.old.entries) name.now
        (left_at left.now name.now (Some file.now))) }
{
    match file.left(alloc, name, left)? {
        Some(file) => {
            image.insert(*name, file)?;
            Ok(())
        }
        None => Ok(()),
    }
}

/// One image of the sample, all of which lasts.
pub(crate) fn image_of(
    alloc: Global,
    files: &BTreeMap<Name, File>,
    left: &Left,
) -> Result<BTreeMap<Name, File>, AllocError>
    ensures { IfOk result (λ image. (name : List ℕ) → state_of image.entries name
        ≡ left_at left.now name (state_of files.now.entries name)) }
{
    let mut image = BTreeMap::new(alloc);
    for (name, file) in files {
        put_left(alloc, &mut image, left, name, file)?;
    }
    Ok(image)
}

/// The images of the sample.
pub(crate) fn sample_of(
    alloc: Global,
    files: &BTreeMap<Name, File>,
) -> Result<Vec<Left>, AllocError>
    ensures sample { IfOk result (λ sample. sample.items ≡ sample_of files.now.entries) }
    ensures ordered { IfOk result (λ _. IsOrdered (slice_cmp nat_cmp) files.now) }
{
    let mut sample = Vec::new(alloc);
    sample.push(Left::Written)?;
    sample.push(Left::Lasting)?;
    for (name, file) in files {
        if file.has_more_than_lasts() {
            sample.push(Left::Cut(*name))?;
            sample.push(Left::Zeroed(*name))?;
        }
    }
    Ok(sample)
}
