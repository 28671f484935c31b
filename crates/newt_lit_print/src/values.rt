//! The values of a graph, each object in full where it is met first.
ghost use Rattle.std.specs.Prelude.{◌≡◌, ◌<◌, ◌≤◌, ◌++◌, length, map, zip, slice_get, OnOk, IfOk};
ghost use Rattle.std.specs.Prelude.{Some};
ghost use Rattle.newt_spec_literal.specs.Spelling.{plain, spelled};
ghost use Rattle.newt_spec_literal.specs.Printed as printed;

use crate::labels::{is_symbol, labels};
use crate::page::Page;
use newt_graph::{MOST_OPEN, Node, Ref};
use std::alloc::{AllocError, Global};

/// Containers are open within one another up to the limit, and the last of them may hold an object
/// without values.
const LEVELS: u8 = MOST_OPEN + 1;

/// The objects that are printed, and their labels.
#[derive(Clone, Copy)]
struct Source<'a> {
    nodes: &'a [Node],
    labels: &'a [Option<u32>],
}

impl Source<'_> {
    fn node(&self, n: u32) -> &Node
        requires { n < length self.now.nodes.now }
        ensures { slice_get self.now.nodes.now n ≡ Some result.now }
    {
        &self.nodes[n as usize]
    }

    fn label(&self, n: u32) -> Option<u32>
        ensures { result ≡ printed.label_of self.now.labels.now n }
    {
        self.labels.get(n as usize).copied().flatten()
    }

    /// The name of a symbol.
    fn symbol(&self, page: &mut Page, n: u32) -> Result<(), AllocError>
        ensures { OnOk result (page.new ≡ spelled page.old (plain
            (printed.symbol_text (slice_get self.now.nodes.now n)))) }
    {
        if n as usize >= self.nodes.len() {
            return Ok(());
        }
        match self.node(n) {
            Node::Symbol(name) => page.name(name.list()),
            _ => Ok(()),
        }
    }

    /// The class and the bytes between two brackets.
    fn binary(
        &self,
        page: &mut Page,
        before: &[u8],
        after: &[u8],
        class: u32,
        bytes: &[u8],
    ) -> Result<(), AllocError>
        ensures { OnOk result (page.new ≡ spelled page.old (plain
            (printed.binary_text self.now.nodes.now before.now after.now class bytes.now))) }
    {
        page.put(before)?;
        self.symbol(page, class)?;
        page.put(b":")?;
        page.hex(bytes)?;
        page.put(after)
    }

    /// The class of an array and its colon, with a space where a value follows.
    fn class(&self, page: &mut Page, class: Option<u32>, values: &[Ref]) -> Result<(), AllocError>
        ensures { OnOk result (page.new ≡ spelled page.old (plain
            (printed.class_text self.now.nodes.now class values.now))) }
    {
        let Some(n) = class else {
            return Ok(());
        };
        self.symbol(page, n)?;
        page.put(if values.is_empty() { b":" } else { b": " })
    }

    /// A value, with so many objects within one another at most.
    #[cycle(value)]
    fn value(&self, page: &mut Page, value: Ref, levels: u8) -> Result<(), AllocError>
        ensures { OnOk result (page.new ≡ spelled page.old (printed.value_at self.now.nodes.now
            self.now.labels.now levels value)) }
    {
        match value {
            Ref::Imm(word) => page.word(word),
            Ref::Node(n) => self.found(page, n, levels),
        }
    }

    /// Node n, with so many objects within one another at most: a symbol in full each time, any
    /// other object by its label where it has been met.
    #[cycle(value)]
    fn found(&self, page: &mut Page, n: u32, levels: u8) -> Result<(), AllocError>
        ensures { OnOk result (page.new ≡ spelled page.old (printed.node_at self.now.nodes.now
            self.now.labels.now levels n)) }
    {
        if levels == 0 || n as usize >= self.nodes.len() {
            return Ok(());
        }
        let node = self.node(n);
        if !is_symbol(node) {
            if page.has_met(n) {
                return page.label(self.label(n), b'#');
            }
            page.label(self.label(n), b'=')?;
            page.meet(n);
        }
        self.object(page, node, levels - 1)
    }

    /// An object in full.
    #[cycle(value)]
    fn object(&self, page: &mut Page, node: &Node, levels: u8) -> Result<(), AllocError>
        ensures { OnOk result (page.new ≡ spelled page.old (printed.object_text self.now.nodes.now
            (printed.value_at self.now.nodes.now self.now.labels.now levels) node.now)) }
    {
        match node {
            Node::Symbol(name) => {
                page.put(b"'")?;
                page.name(name.list())
            }
            Node::Str(units) => page.string(units.list()),
            Node::Binary(class, bytes) => self.binary(page, b"<", b">", *class, bytes.list()),
            Node::Large(class, bytes) => self.binary(page, b"<<", b">>", *class, bytes.list()),
            Node::Array(class, values) => {
                page.put(b"[")?;
                self.class(page, *class, values.list())?;
                self.values(page, values.list(), levels)
            }
            Node::Frame(tags, values) => {
                page.put(b"{")?;
                self.fields(page, tags.list(), values.list(), levels)
            }
        }
    }

    /// The values of an array and its closing bracket.
    #[cycle(value)]
    fn values(&self, page: &mut Page, values: &[Ref], levels: u8) -> Result<(), AllocError>
        ensures { OnOk result (page.new ≡ spelled page.old (printed.list_text 93
            (map (printed.value_at self.now.nodes.now self.now.labels.now levels) values.now))) }
    {
        if let [first, rest @ ..] = values {
            self.value(page, *first, levels)?;
            for value in rest {
                page.put(b", ")?;
                self.value(page, *value, levels)?;
            }
        }
        page.put(b"]")
    }

    /// A tag, its colon, a space and the value.
    #[cycle(value)]
    fn field(&self, page: &mut Page, tag: u32, value: Ref, levels: u8) -> Result<(), AllocError>
        ensures { OnOk result (page.new ≡ spelled page.old (printed.field_text self.now.nodes.now
            (printed.value_at self.now.nodes.now self.now.labels.now levels) (tag, value))) }
    {
        self.symbol(page, tag)?;
        page.put(b": ")?;
        self.value(page, value, levels)
    }

    /// The slots of a frame and its closing brace.
    #[cycle(value)]
    fn fields(
        &self,
        page: &mut Page,
        tags: &[u32],
        values: &[Ref],
        levels: u8,
    ) -> Result<(), AllocError>
        ensures { OnOk result (page.new ≡ spelled page.old (printed.list_text 125
            (map (printed.field_text self.now.nodes.now
            (printed.value_at self.now.nodes.now self.now.labels.now levels))
            (zip tags.now values.now)))) }
    {
        let [tag, tags @ ..] = tags else {
            return page.put(b"}");
        };
        let [value, values @ ..] = values else {
            return page.put(b"}");
        };
        self.field(page, *tag, *value, levels)?;
        self.more_fields(page, tags, values, levels)
    }

    /// The slots after the first one, and the closing brace.
    #[cycle(value)]
    fn more_fields(
        &self,
        page: &mut Page,
        tags: &[u32],
        values: &[Ref],
        levels: u8,
    ) -> Result<(), AllocError>
        ensures { OnOk result (page.new ≡ spelled page.old (printed.more_text 125
            (map (printed.field_text self.now.nodes.now
            (printed.value_at self.now.nodes.now self.now.labels.now levels))
            (zip tags.now values.now)))) }
    {
        for (tag, value) in tags.iter().zip(values) {
            page.put(b", ")?;
            self.field(page, *tag, *value, levels)?;
        }
        page.put(b"}")
    }
}

/// The one text of a graph, appended to a text.
pub(crate) fn print(
    alloc: Global,
    text: Vec<u8>,
    nodes: &[Node],
    root: Ref,
) -> Result<Vec<u8>, AllocError>
    requires { length nodes.now ≤ 65535 }
    ensures { IfOk result (λ whole. whole.items ≡ text.items ++ printed.literal
        (record { nodes = nodes.now; root = root })) }
{
    let labels = labels(alloc, nodes, root)?;
    let source = Source {
        nodes,
        labels: &labels,
    };
    let mut page = Page::after(text);
    source.value(&mut page, root, LEVELS)?;
    Ok(page.into_text())
}
