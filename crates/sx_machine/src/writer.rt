// What a session asks of its builder.
ghost use Rattle.std.specs.Prelude.{◌≡◌, ◌∷◌, [], ◌++◌, ℕ, List, Bool, true, false};
ghost use Rattle.std.specs.Prelude.{reverse, length, drop, OnOk};
ghost use Rattle.sx_build.specs.Asked.{Asked, asked_at, all_asked_at};
ghost use Rattle.sx_build.specs.Build.{Build};
ghost use Rattle.sx_machine.specs.Writer.{WriterStands, asked_attributes};
ghost use Rattle.sx_named.specs.Named.{attributes_at};

use sqlite_items::Items;
use std::alloc::{AllocError, Global};
use std::mem;
use sx_atoms::Code;
use sx_build::{Builder, Raw};
use sx_lines::Built;
use sx_names::Names;
use sx_tree::Attrs;

/// The builder of a session, and the error of what it was asked for.
#[derive(Drop)]
pub struct Writer {
    builder: Builder,
    error: Option<Code>,
    // the memory of a list of attributes, which is empty
    turned: Attrs,
}

// The attributes go behind others, the last first, so that each can be taken from the end.
fn turn(turned: &mut Attrs, mut attrs: Attrs) -> Result<(), AllocError>
    ensures { OnOk result (turned.new ≡ turned.old ++ reverse attrs) }
{
    while let Some(attr) = attrs.pop() {
        turned.push(attr)?;
    }
    Ok(())
}

impl Writer {
    /// A builder that nothing was asked of.
    pub(crate) fn new(alloc: Global) -> Writer
        ensures { WriterStands result [] false 0 }
    {
        Writer {
            builder: Builder::new(alloc),
            error: None,
            turned: Items::new(alloc),
        }
    }

    /// Asks for what comes next.
    pub(crate) fn push(&mut self, raw: Raw, names: &Names) -> Result<(), AllocError>
        ensures { OnOk result ((asked : List Asked) (given : ℕ) → WriterStands self.old asked false given
            → WriterStands self.new (asked ++ asked_at names.now raw ∷ []) false given) }
    {
        self.error = self.builder.push(raw, names)?.err();
        Ok(())
    }

    /// Asks for copies of all of these, one behind the other.
    pub(crate) fn push_all(
        &mut self,
        alloc: Global,
        raws: &[Raw],
        names: &Names,
    ) -> Result<(), AllocError>
        ensures { OnOk result ((asked : List Asked) (given : ℕ) → WriterStands self.old asked false given
            → WriterStands self.new (asked ++ all_asked_at names.now raws.now) false given) }
    {
        for raw in raws {
            self.push(Raw::copy(alloc, raw)?, names)?;
        }
        Ok(())
    }

    /// Asks for these attributes in their order.
    pub(crate) fn push_attributes(
        &mut self,
        alloc: Global,
        attrs: Attrs,
        names: &Names,
    ) -> Result<(), AllocError>
        ensures { OnOk result ((asked : List Asked) (given : ℕ) → WriterStands self.old asked false given
            → WriterStands self.new (asked
            ++ asked_attributes (attributes_at names.now attrs)) false given) }
    {
        let mut turned = mem::replace(&mut self.turned, Items::new(alloc));
        turn(&mut turned, attrs)?;
        while let Some(attr) = turned.pop() {
            self.push(Raw::Attr(attr), names)?;
        }
        self.turned = turned;
        Ok(())
    }

    /// The error of what was asked for.
    pub(crate) fn error(&self) -> Option<Code>
        ensures { result ≡ self.now.error }
    {
        self.error
    }

    /// Is told that the content is at its end.
    pub(crate) fn finish(&mut self)
        ensures { (asked : List Asked) (given : ℕ) → WriterStands self.old asked false given
            → WriterStands self.new asked true given }
    {
        self.builder.finish();
    }

    /// The built events that are fixed and were not cleared yet, in order.
    pub(crate) fn output(&self) -> &[Built]
        ensures { (asked : List Asked) (at_end : Bool) (given : ℕ)
            → WriterStands self.now asked at_end given
            → result.now ≡ drop given (Build asked at_end) }
    {
        self.builder.output()
    }

    /// Drops the built events that are fixed: they were given. It takes no memory.
    pub(crate) fn clear_output(&mut self)
        ensures { (asked : List Asked) (at_end : Bool) (given : ℕ)
            → WriterStands self.old asked at_end given
            → WriterStands self.new asked at_end (length (Build asked at_end)) }
    {
        self.builder.clear_output();
    }
}
