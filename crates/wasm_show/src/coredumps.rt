// Texts of core dumps.
ghost use Rattle.wasm_show.specs.CustomText.{core_value_fields};
ghost use Rattle.wasm_output.specs.Said.{SaysFields};
ghost use Rattle.wasm_output.specs.Tree.{Adds};

use crate::lists::{show_lines, under, write_lines};
use crate::show::Show;
use wasm_custom::{
    CoreDumpInstance, CoreDumpInstancesSection, CoreDumpModulesSection, CoreDumpSection,
    CoreDumpStackFrame, CoreDumpStackSection, CoreDumpValue,
};
use wasm_output::Tree;

impl Show for CoreDumpSection<'_> {
    fn show<O: Tree>(&self, _level: usize, out: &mut O) {
        out.quoted("process", self.name);
    }
}

/// Writes the modules on lines under the current line.
impl Show for CoreDumpModulesSection<'_> {
    fn show<O: Tree>(&self, level: usize, out: &mut O) {
        out.number("modules", self.modules.len() as u64);
        show_lines(under(level), "module", &self.modules, out);
    }
}

/// Writes the fields of the item, and the indices of memories and globals on lines under it.
impl Show for CoreDumpInstance {
    fn show<O: Tree>(&self, level: usize, out: &mut O) {
        out.number("module_index", u64::from(self.module_index));
        write_lines(under(level), "memory", &self.memories, out);
        write_lines(under(level), "global", &self.globals, out);
    }
}

/// Writes the instances on lines under the current line.
impl Show for CoreDumpInstancesSection {
    fn show<O: Tree>(&self, level: usize, out: &mut O) {
        out.number("instances", self.instances.len() as u64);
        show_lines(under(level), "instance", &self.instances, out);
    }
}

impl Show for CoreDumpValue {
    fn show<O: Tree>(&self, _level: usize, out: &mut O)
        ensures adds { Adds (O.writing out.old) (O.writing out.new) }
        // Proved: what the line of a value of a core dump says
        ensures says { SaysFields (core_value_fields self.now) (O.writing out.old) (O.writing out.new) }
    {
        match self {
            CoreDumpValue::Missing => out.label("value", "missing"),
            CoreDumpValue::I32(number) => out.signed("i32", i64::from(*number)),
            CoreDumpValue::I64(number) => out.signed("i64", *number),
            CoreDumpValue::F32(float) => out.number("f32_bits", u64::from(float.bits())),
            CoreDumpValue::F64(float) => out.number("f64_bits", float.bits()),
        }
    }
}

/// Writes the fields of the item, and the values on lines under it.
impl Show for CoreDumpStackFrame {
    fn show<O: Tree>(&self, level: usize, out: &mut O) {
        out.number("instanceidx", u64::from(self.instanceidx));
        out.number("funcidx", u64::from(self.funcidx));
        out.number("codeoffset", u64::from(self.codeoffset));
        show_lines(under(level), "local", &self.locals, out);
        show_lines(under(level), "stack", &self.stack, out);
    }
}

/// Writes the frames on lines under the current line.
impl Show for CoreDumpStackSection<'_> {
    fn show<O: Tree>(&self, level: usize, out: &mut O) {
        out.quoted("thread", self.name);
        out.number("frames", self.frames.len() as u64);
        show_lines(under(level), "frame", &self.frames, out);
    }
}
