// Laws of the definitions.
ghost use Rattle.std.specs.Prelude.{◌≡◌, ℕ, List};
ghost use Rattle.serde_json.specs.Data.{Data};
ghost use Rattle.catalog_stream.specs.Stream.{BlobView, Stream};
ghost use Rattle.fbc_types.specs.declared.catalog.Catalog.{Catalog};
ghost use Rattle.fbc_read.specs.Bodies.{HasOneListing, HasOneBody};
ghost use Rattle.fbc_read.specs.Constraints.{constraint, constraint_by};
ghost use Rattle.fbc_read.specs.Catalogs.{ReadsOn};

/// The law of constraints: one is read by its own fields, and those that nest in it are read in the same way, however
/// deep they nest.
pub fn constraint_law()
    ensures { (value : Data) → constraint value ≡ constraint_by constraint value }
{}

/// The law of reading on: reading one stream without a fault and then another one into the same catalog, the numbers
/// going on, is reading the blobs of both at once.
pub fn reading_law()
    ensures { (old : Catalog) → (first : ℕ) → (one : List BlobView) → (other : Stream) → ReadsOn old first one other }
{}

/// The law of folders: one that tells what it holds has one list of files below a path, in order and each with its
/// bytes, and so it gives one body.
pub fn folder_law()
    ensures listing { (told : List (List ℕ × List ℕ)) → (under : List ℕ) → HasOneListing told under }
    ensures body { (told : List (List ℕ × List ℕ)) → (under : List ℕ) → (limit : ℕ) → HasOneBody told under limit }
{}
