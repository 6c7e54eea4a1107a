// What a dynamic linker reads.
ghost use Rattle.std.specs.Prelude.{◌≡◌, ℕ, ◌+◌, ◌≤◌, ◌<◌, ◌^◌, ◌++◌, ◌↔◌, IsTrue, length, take};
ghost use Rattle.wasm_custom.specs.Dylink0.{export_info_parts, import_info_parts};
ghost use Rattle.wasm_encode.specs.Dylink0.{ArchBack, ExportInfosBack, ExportInfosFit, ImportInfosBack, ImportInfosFit};
ghost use Rattle.wasm_encode.specs.Dylink0.{MemInfoBack, MemInfoFits, LibraryNamesBack, LibraryNamesFit, export_info_bytes};
ghost use Rattle.wasm_encode.specs.Dylink0.{import_info_bytes};
ghost use Rattle.wasm_encode.specs.Names.{NameFits};

use crate::encode::Encode;
use crate::names::write_name;
use crate::number::{unsigned_len, write_unsigned};
use crate::texts::{text_fits, text_len};
use bitflags::Flags;
use wasm_custom::{ExportInfo, ImportInfo, MemInfo};

impl Encode for MemInfo {
    ghost use Rattle.wasm_base.specs.Item.{ReadsAs};
    ghost use Rattle.wasm_custom.specs.Dylink0.{mem_info_at};
    ghost use Rattle.wasm_encode.specs.Dylink0.{mem_info_bytes};

    ghost meaning = { ReadsAs (λ info. info) mem_info_at };

    ghost encoded = { mem_info_bytes };

    ghost is_encodable = { MemInfoFits };

    ghost is_allowed = { λ features info. Unit {0} };

    ghost placed = { λ features offset info. info };

    fn fits(&self) -> bool {
        let _size = self.memory_size;
        let _alignment = self.memory_alignment;
        let _table_size = self.table_size;
        let _table_alignment = self.table_alignment;
        true
    }

    #[tactic(auto, unfolding(crate::specs::Dylink0::mem_info_bytes), using(crate::proofs::Numbers::septets_few))]
    fn encoded_len(&self) -> usize {
        unsigned_len(u64::from(self.memory_size))
            + unsigned_len(u64::from(self.memory_alignment))
            + unsigned_len(u64::from(self.table_size))
            + unsigned_len(u64::from(self.table_alignment))
    }

    #[tactic(auto, unfolding(crate::specs::Dylink0::mem_info_bytes), using(crate::proofs::RestStays::stays_on))]
    fn encode_at(&self, bytes: &mut [u8], at: usize) -> usize {
        let after_size = write_unsigned(bytes, at, u64::from(self.memory_size));
        let after_alignment = write_unsigned(bytes, after_size, u64::from(self.memory_alignment));
        let after_table = write_unsigned(bytes, after_alignment, u64::from(self.table_size));
        write_unsigned(bytes, after_table, u64::from(self.table_alignment))
    }

    fn reads_back(&self) {}
}

// Returns how many bytes the information about an export has.
#[tactic(auto, unfolding(crate::specs::Dylink0::export_info_bytes), using(crate::proofs::Numbers::septets_few))]
fn export_info_len(info: &ExportInfo<'_>) -> usize
    requires { length info.now.name.now < 2 ^ 32 }
    ensures { result ≡ length (export_info_bytes (export_info_parts info.now)) }
{
    text_len(info.name) + unsigned_len(u64::from(info.flags.bits()))
}

impl<'a> Encode for ExportInfo<'a> {
    ghost use Rattle.wasm_base.specs.Item.{ReadsAs};
    ghost use Rattle.wasm_custom.specs.Dylink0.{export_info_at};
    ghost use Rattle.wasm_encode.specs.Dylink0.{ExportInfoFits};

    ghost meaning = { ReadsAs export_info_parts export_info_at };

    ghost encoded = { λ info. export_info_bytes (export_info_parts info) };

    ghost is_encodable = { λ info. ExportInfoFits (export_info_parts info) };

    ghost is_allowed = { λ features info. Unit {0} };

    ghost placed = { λ features offset info. info };

    fn fits(&self) -> bool {
        let _flags = self.flags.bits();
        if !text_fits(self.name) {
            return false;
        }
        export_info_len(self) <= u32::MAX as usize
    }

    fn encoded_len(&self) -> usize {
        export_info_len(self)
    }

    #[tactic(auto, unfolding(crate::specs::Dylink0::export_info_bytes), using(crate::proofs::RestStays::stays_on))]
    fn encode_at(&self, bytes: &mut [u8], at: usize) -> usize {
        let after_name = write_name(bytes, at, self.name);
        write_unsigned(bytes, after_name, u64::from(self.flags.bits()))
    }

    fn reads_back(&self) {}
}

// Returns how many bytes the information about an import has.
#[tactic(auto, unfolding(crate::specs::Dylink0::import_info_bytes), using(crate::proofs::Numbers::septets_few))]
fn import_info_len(info: &ImportInfo<'_>) -> usize
    requires from { length info.now.module.now < 2 ^ 32 }
    requires field { length info.now.field.now < 2 ^ 32 }
    ensures { result ≡ length (import_info_bytes (import_info_parts info.now)) }
{
    text_len(info.module) + text_len(info.field) + unsigned_len(u64::from(info.flags.bits()))
}

impl<'a> Encode for ImportInfo<'a> {
    ghost use Rattle.wasm_base.specs.Item.{ReadsAs};
    ghost use Rattle.wasm_custom.specs.Dylink0.{import_info_at};
    ghost use Rattle.wasm_encode.specs.Dylink0.{ImportInfoFits};

    ghost meaning = { ReadsAs import_info_parts import_info_at };

    ghost encoded = { λ info. import_info_bytes (import_info_parts info) };

    ghost is_encodable = { λ info. ImportInfoFits (import_info_parts info) };

    ghost is_allowed = { λ features info. Unit {0} };

    ghost placed = { λ features offset info. info };

    fn fits(&self) -> bool {
        let _flags = self.flags.bits();
        if !text_fits(self.module) {
            return false;
        }
        if !text_fits(self.field) {
            return false;
        }
        import_info_len(self) <= u32::MAX as usize
    }

    fn encoded_len(&self) -> usize {
        import_info_len(self)
    }

    #[tactic(auto, unfolding(crate::specs::Dylink0::import_info_bytes), using(crate::proofs::RestStays::stays_on))]
    fn encode_at(&self, bytes: &mut [u8], at: usize) -> usize {
        let after_module = write_name(bytes, at, self.module);
        let after_field = write_name(bytes, after_module, self.field);
        write_unsigned(bytes, after_field, u64::from(self.flags.bits()))
    }

    fn reads_back(&self) {}
}

/// The subsection of the memory and table space of a library, which `write_subsection` writes with the id 1, is read as
/// exactly this. Does nothing.
pub fn mem_info_reads_back(info: &MemInfo)
    requires { MemInfoFits info.now }
    // Proved: each subsection of `dylink.0` that was written is read as its id and exactly what was written, as
    //   `Dylink0Subsection` reads it [the clauses of `mem_info_reads_back`, `library_names_read_back`,
    //   `export_infos_read_back`, `import_infos_read_back`, `library_arch_reads_back`]
    ensures { (features offset : ℕ) → MemInfoBack features offset info.now }
{
    let _info = info;
}

/// A subsection of names of libraries (id 2) or of directories to search (id 5), which `write_section` writes, is read
/// as exactly these names. Does nothing.
pub fn library_names_read_back(names: &[&str])
    requires { LibraryNamesFit names.now }
    ensures { (features offset : ℕ) → LibraryNamesBack features offset names.now }
{
    let _names = names;
}

/// A subsection of information about exports, which `write_section` writes with the id 3, is read as exactly this
/// information. Does nothing.
pub fn export_infos_read_back(infos: &[ExportInfo<'_>])
    requires { ExportInfosFit infos.now }
    ensures { (features offset : ℕ) → ExportInfosBack features offset infos.now }
{
    let _infos = infos;
}

/// A subsection of information about imports, which `write_section` writes with the id 4, is read as exactly this
/// information. Does nothing.
pub fn import_infos_read_back(infos: &[ImportInfo<'_>])
    requires { ImportInfosFit infos.now }
    ensures { (features offset : ℕ) → ImportInfosBack features offset infos.now }
{
    let _infos = infos;
}

/// The subsection of the architecture that a library is for, which `write_subsection` writes with the id 6, is read as
/// exactly this name. Does nothing.
pub fn library_arch_reads_back(name: &str)
    requires { NameFits name.now }
    ensures { (features offset : ℕ) → ArchBack features offset name.now }
{
    let _name = name;
}
