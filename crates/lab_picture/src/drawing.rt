ghost use Rattle.std.specs.Prelude.{◌≡◌, ◌++◌, map, OnOk};
ghost use Rattle.bench_world.specs.Worlds.{world_of};
ghost use Rattle.script_story.specs.Mirrors.{mirror_as};
ghost use Rattle.lab_picture.specs.Drawn.{nothing_drawn, picture, with_declared, with_event, with_marks};

use crate::columns::{columns_of, counts_of, put_heads};
use crate::marks::{put_changes, put_row};
use crate::page::put_page;
use crate::sights::put_sight;
use bench_world::World;
use script_lang::Words;
use std::alloc::{AllocError, Global};
use std::marker::Model;

// How many rows a picture has at most.
const MOST_ROWS: u32 = 2000;

// The labels above the columns, and the rows so far.
#[derive(Drop)]
pub(crate) struct Drawing {
    alloc: Global,
    heads: Vec<u8>,
    members: u32,
    columns: u32,
    listed: Vec<u64>,
    rows: u32,
    more: u64,
    body: Vec<u8>,
}

impl Model for Drawing {
    ghost use Rattle.lab_picture.specs.Drawn.{Drawn};

    ghost Value = { Drawn };

    ghost view = { λ d. record {
      heads = d.heads.items;
      members = d.members;
      columns = d.columns;
      listed = d.listed.items;
      rows = d.rows;
      more = d.more;
      body = d.body.items;
    } };
}

impl Drawing {
    // Nothing is drawn.
    pub fn new(alloc: Global) -> Drawing
        ensures { result ≡ nothing_drawn }
    {
        Drawing {
            alloc,
            heads: Vec::new(alloc),
            members: 0,
            columns: 0,
            listed: Vec::new(alloc),
            rows: 0,
            more: 0,
            body: Vec::new(alloc),
        }
    }

    // Takes what is declared so far, before the first event.
    pub fn declare(&mut self, words: &Words) -> Result<(), AllocError>
        ensures { OnOk result (self.new ≡ with_declared self.old words.now) }
    {
        self.heads.clear();
        put_heads(&mut self.heads, words)?;
        self.members = words.members() as u32;
        self.columns = columns_of(words);
        Ok(())
    }

    // Takes a line whose world is `world`.
    pub fn take(
        &mut self,
        number: u32,
        line: &[u8],
        report: &[u8],
        words: &Words,
        world: &World,
    ) -> Result<(), AllocError>
        ensures { OnOk result (self.new ≡ with_event self.old number line.now report.now words.now
            (world_of world.now) (map mirror_as world.now.mirrors)) }
    {
        let counts = counts_of(self.alloc, words, world)?;
        let mut marks = Vec::new(self.alloc);
        put_sight(&mut marks, self.rows, words, world, line, report)?;
        put_changes(&mut marks, self.rows, self.columns, &self.listed, &counts)?;
        self.listed = counts;
        self.add(number, line, &marks)
    }

    // Takes the marks of a line.
    fn add(&mut self, number: u32, line: &[u8], marks: &[u8]) -> Result<(), AllocError>
        ensures { OnOk result (self.new ≡ with_marks self.old number line.now marks.now) }
    {
        if marks.is_empty() {
            return Ok(());
        }
        if self.rows >= MOST_ROWS {
            self.more = self.more.saturating_add(1);
            return Ok(());
        }
        put_row(&mut self.body, self.rows, self.columns, number, line, marks)?;
        self.rows += 1;
        Ok(())
    }

    // Puts down the whole picture.
    pub fn put(&self, out: &mut Vec<u8>) -> Result<(), AllocError>
        ensures { OnOk result (out.new.items ≡ out.old.items ++ picture self.now) }
    {
        put_page(
            out,
            self.members,
            self.columns,
            self.rows,
            self.more,
            &self.heads,
            &self.body,
        )
    }
}
