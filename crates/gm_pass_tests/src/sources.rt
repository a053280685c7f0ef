//! Trees as source text, with all parentheses. A variable that no text declares is `v` and its number in the table; such
//! variables stand with their types before the body. A group assignment has `:=`, and a deferred one ends with `@`.

use gm_ast::surface::ReductionWord;
use gm_ast::tree::{
    Declaration, Direction, Domain, Expr, Head, Search, Sort, Stmt, Target, Tree, Variable,
};
use gm_value::{Op1, Op2, Reduce, VType, Value};
use std::alloc::{AllocError, Global};
use std::str;

// A text that grows, and the table of the variables that it names.
#[derive(Drop)]
struct Source<'a> {
    alloc: Global,
    table: &'a [Declaration],
    text: String,
}

// The word of an operator, between spaces.
fn word2(op: Op2) -> &'static str {
    match op {
        Op2::Add => " + ",
        Op2::Sub => " - ",
        Op2::Mul => " * ",
        Op2::Div => " / ",
        Op2::Rem => " % ",
        Op2::Eq => " == ",
        Op2::Ne => " != ",
        Op2::Lt => " < ",
        Op2::Le => " <= ",
        Op2::Gt => " > ",
        Op2::Ge => " >= ",
    }
}

// The word of an operator before its operand.
fn word1(op: Op1) -> &'static str {
    match op {
        Op1::Neg => "-",
        Op1::Not => "!",
        Op1::ToI32 => "(Int) ",
        Op1::ToI64 => "(Long) ",
    }
}

// The word of a reduction assignment, between spaces.
fn assigning(reduce: Reduce) -> &'static str {
    match reduce {
        Reduce::Sum => " += ",
        Reduce::Product => " *= ",
        Reduce::Min => " min= ",
        Reduce::Max => " max= ",
        Reduce::And => " &&= ",
        Reduce::Or => " ||= ",
    }
}

// The word of a reduction.
fn reducing(word: ReductionWord) -> &'static str {
    match word {
        ReductionWord::Sum => "Sum",
        ReductionWord::Product => "Product",
        ReductionWord::Min => "Min",
        ReductionWord::Max => "Max",
        ReductionWord::All => "All",
        ReductionWord::Exist => "Exist",
        ReductionWord::Count => "Count",
    }
}

// The word of a domain, behind the point.
fn ranging(domain: Domain) -> &'static str {
    match domain {
        Domain::Nodes => ".Nodes)",
        Domain::OutNbrs => ".Nbrs)",
        Domain::InNbrs => ".InNbrs)",
        Domain::UpNbrs => ".UpNbrs)",
        Domain::DownNbrs => ".DownNbrs)",
    }
}

// The word of a degree, behind the point.
fn counting(direction: Direction) -> &'static str {
    match direction {
        Direction::Out => ".OutDegree()",
        Direction::In => ".InDegree()",
    }
}

// The word of a type.
fn typed(vtype: VType) -> &'static str {
    match vtype {
        VType::I32 => "Int",
        VType::I64 => "Long",
        VType::Flag => "Bool",
        VType::Node => "Node",
    }
}

// What stands before and behind the word of a type, by the sort of what is declared.
fn around(variable: Variable) -> (&'static str, &'static str) {
    match variable.sort {
        Sort::NodeProperty => ("N_P<", "> "),
        Sort::EdgeProperty => ("E_P<", "> "),
        _ => ("", " "),
    }
}

// The word of a variable that stands within a loop.
fn depth_word(depth: u32) -> &'static str {
    if depth > 0 { "inside " } else { "" }
}

// Whether an expression is the constant True.
fn is_true(e: &Expr) -> bool {
    match e {
        Expr::Const(value) => *value == Value::Flag(true),
        _ => false,
    }
}

// Whether a statement is an empty block.
fn is_empty(s: &Stmt) -> bool {
    match s {
        Stmt::Block(stmts) => stmts.is_empty(),
        _ => false,
    }
}

// The word of a truth value.
fn flag_word(flag: bool) -> &'static str {
    if flag { "True" } else { "False" }
}

// The word of the type of a variable.
fn type_word(table: &[Declaration], variable: u32) -> &'static str {
    match table.get(variable as usize) {
        Some(declaration) => typed(declaration.variable.vtype),
        None => "?",
    }
}

// The name of a variable, which is empty where no text declares it.
fn name_of(table: &[Declaration], variable: u32) -> &str {
    match table.get(variable as usize) {
        Some(declaration) => str::from_utf8(declaration.name.as_slice()).unwrap_or("?"),
        None => "?",
    }
}

impl<'a> Source<'a> {
    fn put(&mut self, text: &str) -> Result<(), AllocError> {
        self.text.push_str(text)
    }

    fn put_name(&mut self, variable: u32) -> Result<(), AllocError> {
        let name = name_of(self.table, variable);
        if name.is_empty() {
            self.put_numbered("v", variable)
        } else {
            self.put(name)
        }
    }

    // A name, and what stands behind it.
    fn put_named(&mut self, variable: u32, behind: &str) -> Result<(), AllocError> {
        self.put_name(variable)?;
        self.put(behind)
    }

    fn put_member(&mut self, owner: u32, property: u32) -> Result<(), AllocError> {
        self.put_named(owner, ".")?;
        self.put_name(property)
    }

    fn put_value(&mut self, value: Value) -> Result<(), AllocError> {
        match value {
            Value::I32(number) => self.put_number(i64::from(number), ""),
            Value::I64(number) => self.put_number(number, "L"),
            Value::Flag(flag) => self.put(flag_word(flag)),
            Value::At(node) => self.put_node(node),
        }
    }

    // A number, and what stands behind it.
    fn put_number(&mut self, number: i64, behind: &str) -> Result<(), AllocError> {
        let text = format!(in self.alloc; "{number}{behind}")?;
        self.put(text.as_str())
    }

    fn put_node(&mut self, node: Option<u32>) -> Result<(), AllocError> {
        match node {
            Some(node) => self.put_numbered("node ", node),
            None => self.put("NIL"),
        }
    }

    // A word, and a number behind it.
    fn put_numbered(&mut self, word: &str, number: u32) -> Result<(), AllocError> {
        let text = format!(in self.alloc; "{word}{number}")?;
        self.put(text.as_str())
    }

    // The head of a loop, a reduction or a search.
    fn put_head(&mut self, word: &str, head: Head) -> Result<(), AllocError> {
        self.put(word)?;
        self.put_named(head.iterator, ": ")?;
        self.put_named(head.owner, ranging(head.domain))
    }

    // An expression without parts.
    fn put_leaf(&mut self, e: &Expr) -> Result<(), AllocError> {
        match e {
            Expr::Const(value) => self.put_value(*value),
            Expr::Var { variable, .. } => self.put_name(*variable),
            Expr::Property {
                owner,
                property,
                ..
            } => self.put_member(*owner, *property),
            Expr::EdgeProperty { edge, property, .. } => self.put_member(*edge, *property),
            Expr::Degree {
                direction,
                owner,
                ..
            } => self.put_named(*owner, counting(*direction)),
            Expr::NodeCount => self.put("NumNodes()"),
            Expr::EdgeCount => self.put("NumEdges()"),
            Expr::Live { variable, .. } => {
                self.put("Live(")?;
                self.put_named(*variable, ")")
            }
            _ => Ok(()),
        }
    }

    fn put_expr(&mut self, e: &Expr) -> Result<(), AllocError> {
        match e {
            Expr::Unary { op, inner, .. } => {
                self.put(word1(*op))?;
                self.put("(")?;
                self.put_expr(inner)?;
                self.put(")")
            }
            Expr::Binary {
                op,
                left,
                right,
                ..
            } => {
                self.put("(")?;
                self.put_expr(left)?;
                self.put(word2(*op))?;
                self.put_expr(right)?;
                self.put(")")
            }
            Expr::Both(left, right) => {
                self.put("(")?;
                self.put_expr(left)?;
                self.put(" && ")?;
                self.put_expr(right)?;
                self.put(")")
            }
            Expr::Either(left, right) => {
                self.put("(")?;
                self.put_expr(left)?;
                self.put(" || ")?;
                self.put_expr(right)?;
                self.put(")")
            }
            Expr::Choose(test, yes, no) => {
                self.put("(")?;
                self.put_expr(test)?;
                self.put(" ? ")?;
                self.put_expr(yes)?;
                self.put(" : ")?;
                self.put_expr(no)?;
                self.put(")")
            }
            Expr::Fold {
                fold,
                head,
                filter,
                body,
            } => {
                self.put(reducing(fold.word))?;
                self.put_head("(", *head)?;
                // a filter that is True is left out
                if !is_true(filter) {
                    self.put("(")?;
                    self.put_expr(filter)?;
                    self.put(")")?;
                }
                self.put("{")?;
                self.put_expr(body)?;
                self.put("}")
            }
            leaf => self.put_leaf(leaf),
        }
    }

    // An expression between two words.
    fn put_within(&mut self, word: &str, e: &Expr, end: &str) -> Result<(), AllocError> {
        self.put(word)?;
        self.put_expr(e)?;
        self.put(end)
    }

    fn put_target(&mut self, target: Target) -> Result<(), AllocError> {
        match target {
            Target::Scalar { variable, .. } => self.put_name(variable),
            Target::Property {
                owner,
                property,
                ..
            } => self.put_member(owner, property),
        }
    }

    // The type of a declared variable, and its name.
    fn put_typed(&mut self, variable: u32) -> Result<(), AllocError> {
        self.put(type_word(self.table, variable))?;
        self.put(" ")?;
        self.put_name(variable)
    }

    // The value of a declaration, if it has one, and its end.
    fn put_start(&mut self, value: &Option<Expr>) -> Result<(), AllocError> {
        match value {
            Some(value) => self.put_within(" = ", value, ";"),
            None => self.put(";"),
        }
    }

    fn put_declaration(&mut self, variable: u32, value: &Option<Expr>) -> Result<(), AllocError> {
        self.put_typed(variable)?;
        self.put_start(value)
    }

    fn put_return(&mut self, value: &Option<Expr>) -> Result<(), AllocError> {
        match value {
            Some(value) => self.put_within("Return ", value, ";"),
            None => self.put("Return;"),
        }
    }

    fn put_edge(&mut self, variable: u32, iterator: u32) -> Result<(), AllocError> {
        self.put("Edge ")?;
        self.put_named(variable, " = ")?;
        self.put_named(iterator, ".ToEdge();")
    }

    // All targets of a reduction assignment, with words between them.
    fn put_targets(&mut self, targets: &[Target]) -> Result<(), AllocError> {
        let mut word = "";
        for target in targets {
            self.put(word)?;
            self.put_target(*target)?;
            word = "; ";
        }
        Ok(())
    }

    // All values of one.
    fn put_values(&mut self, values: &[Expr]) -> Result<(), AllocError> {
        let mut word = "";
        for value in values {
            self.put_within(word, value, "")?;
            word = "; ";
        }
        Ok(())
    }

    // A reduction assignment of a tuple.
    fn put_tuple(
        &mut self,
        reduce: Reduce,
        targets: &[Target],
        values: &[Expr],
    ) -> Result<(), AllocError> {
        self.put("<")?;
        self.put_targets(targets)?;
        self.put(">")?;
        self.put(assigning(reduce))?;
        self.put_tuple_values(values)
    }

    // The values of a tuple.
    fn put_tuple_values(&mut self, values: &[Expr]) -> Result<(), AllocError> {
        self.put("<")?;
        self.put_values(values)?;
        self.put(">;")
    }

    // A reduction assignment of one variable.
    fn put_one(
        &mut self,
        reduce: Reduce,
        targets: &[Target],
        values: &[Expr],
    ) -> Result<(), AllocError> {
        self.put_targets(targets)?;
        self.put(assigning(reduce))?;
        self.put_values(values)?;
        self.put(";")
    }

    fn put_reduction(
        &mut self,
        reduce: Reduce,
        targets: &[Target],
        values: &[Expr],
    ) -> Result<(), AllocError> {
        if targets.len() == 1 {
            self.put_one(reduce, targets, values)
        } else {
            self.put_tuple(reduce, targets, values)
        }
    }

    // A filter, unless it is True.
    fn put_filter(&mut self, filter: &Expr) -> Result<(), AllocError> {
        if is_true(filter) {
            return self.put(" ");
        }
        self.put_within(" (", filter, ") ")
    }

    // The beginning of a loop, up to its body.
    fn put_loop(&mut self, word: &str, head: Head, filter: &Expr) -> Result<(), AllocError> {
        self.put_head(word, head)?;
        self.put_filter(filter)
    }

    // The beginning of a search, up to its body.
    fn put_search(&mut self, search: Search, filter: &Expr) -> Result<(), AllocError> {
        self.put("InBFS (")?;
        self.put_named(search.iterator, ": ")?;
        self.put_named(search.graph, ".Nodes From ")?;
        self.put_named(search.root, ")")?;
        self.put_filter(filter)
    }

    // A target, and what it is set to.
    fn put_set(
        &mut self,
        target: Target,
        word: &str,
        value: &Expr,
        end: &str,
    ) -> Result<(), AllocError> {
        self.put_target(target)?;
        self.put_within(word, value, end)
    }

    fn put_group(&mut self, graph: u32, property: u32, value: &Expr) -> Result<(), AllocError> {
        self.put_member(graph, property)?;
        self.put_within(" := ", value, ";")
    }

    // A statement without statements in it.
    fn put_simple(&mut self, s: &Stmt) -> Result<(), AllocError> {
        match s {
            Stmt::Declare {
                variable,
                value,
                ..
            } => self.put_declaration(*variable, value),
            Stmt::DeclareEdge {
                variable,
                iterator,
                ..
            } => self.put_edge(*variable, *iterator),
            Stmt::Assign { target, value, .. } => self.put_set(*target, " = ", value, ";"),
            Stmt::Defer { target, value, .. } => self.put_set(*target, " <= ", value, " @;"),
            Stmt::Reduce {
                reduce,
                targets,
                values,
                ..
            } => self.put_reduction(*reduce, targets, values),
            Stmt::Group {
                graph,
                property,
                value,
                ..
            } => self.put_group(*graph, *property, value),
            Stmt::Return { value, .. } => self.put_return(value),
            _ => Ok(()),
        }
    }

    // A block, and in the next the other statements; an empty branch behind Else is left out.
    #[cycle(stating)]
    fn put_block(&mut self, stmts: &Vec<Stmt>) -> Result<(), AllocError> {
        self.put("{")?;
        for stmt in stmts {
            self.put(" ")?;
            self.put_stmt(stmt)?;
        }
        self.put(" }")
    }

    #[cycle(stating)]
    fn put_stmt(&mut self, s: &Stmt) -> Result<(), AllocError> {
        match s {
            Stmt::Block(stmts) => self.put_block(stmts),
            Stmt::Foreach {
                head,
                filter,
                body,
                ..
            } => {
                self.put_loop("Foreach (", *head, filter)?;
                self.put_stmt(body)
            }
            Stmt::For {
                head,
                filter,
                body,
                ..
            } => {
                self.put_loop("For (", *head, filter)?;
                self.put_stmt(body)
            }
            Stmt::If { test, yes, no, .. } => {
                self.put_within("If (", test, ") ")?;
                self.put_stmt(yes)?;
                if is_empty(no) {
                    return Ok(());
                }
                self.put(" Else ")?;
                self.put_stmt(no)
            }
            Stmt::While { test, body, .. } => {
                self.put_within("While (", test, ") ")?;
                self.put_stmt(body)
            }
            Stmt::Do { test, body, .. } => {
                self.put("Do ")?;
                self.put_stmt(body)?;
                self.put_within(" While (", test, ");")
            }
            Stmt::InBfs {
                search,
                filter,
                body,
                ..
            } => {
                self.put_search(*search, filter)?;
                self.put_stmt(body)
            }
            Stmt::InBfsBoth {
                search,
                filter,
                body,
                back_filter,
                back,
                ..
            } => {
                self.put_search(*search, filter)?;
                self.put_stmt(body)?;
                self.put(" InReverse")?;
                self.put_filter(back_filter)?;
                self.put_stmt(back)
            }
            simple => self.put_simple(simple),
        }
    }

    // The type of a variable that no text declares.
    fn put_type(&mut self, variable: Variable) -> Result<(), AllocError> {
        let (before, behind) = around(variable);
        self.put(depth_word(variable.depth))?;
        self.put(before)?;
        self.put(typed(variable.vtype))?;
        self.put(behind)
    }

    // The declaration of a variable, if no text declares it.
    fn put_fresh(&mut self, number: u32, declaration: &Declaration) -> Result<(), AllocError> {
        if declaration.name.as_slice().is_empty() {
            self.put_type(declaration.variable)?;
            self.put_named(number, "; ")
        } else {
            Ok(())
        }
    }

    // The declarations of all variables that no text declares.
    fn put_table(&mut self) -> Result<(), AllocError> {
        let mut number = 0u32;
        for declaration in self.table {
            self.put_fresh(number, declaration)?;
            number = number.saturating_add(1);
        }
        Ok(())
    }
}

/// The body of a program as source text, behind the variables that no text declares.
pub fn source_of(alloc: Global, tree: &Tree) -> Result<String, AllocError> {
    let mut source = Source {
        alloc,
        table: &tree.declarations,
        text: String::new(alloc),
    };
    source.put_table()?;
    source.put_stmt(&tree.body)?;
    Ok(source.text)
}
