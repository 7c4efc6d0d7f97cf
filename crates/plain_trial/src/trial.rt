// A question of a file, and what is tried for it.
use crate::naming::NamedLine;
use crate::questions::{Asked, Question};
use crate::rows::Row;
use crate::setting::Setting;
use crate::telling::Refusal;
use crate::trying::{Case, Choices, Filling, other_numbers};
use crate::watching::{Watch, Watched};
use std::alloc::AllocError;

// The most fillings for a question.
const MOST_FILLINGS: u64 = 16777216;

#[derive(Drop)]
pub struct Trial<'a> {
    setting: &'a Setting,
    question: &'a Question,
    // The lines of its answer.
    lines: Vec<NamedLine>,
    // Numbers that stand nowhere, one for each gap.
    others: Vec<u64>,
    // Every gap with every number that stands somewhere and with the others.
    choices: Choices,
}

impl<'a> Trial<'a> {
    // With the numbers that stand in the file or in the question, and as many others as there are gaps. Nothing where there are too many
    // fillings; that is found before the lines are worked out.
    pub fn of(setting: &'a Setting, asked: &'a Asked) -> Result<Option<Trial<'a>>, AllocError> {
        let heap = setting.heap;
        let gaps = &setting.names.gaps;
        let mut numbers = setting.names.numbers.clone()?;
        numbers.extend(&asked.numbers)?;
        numbers.extend(asked.rows.iter().flatten())?;
        let others = other_numbers(heap, &numbers, gaps.len())?;
        numbers.extend(&others)?;
        let choices = Choices::alike(heap, gaps, &numbers)?;
        if choices.count() > MOST_FILLINGS {
            return Ok(None);
        }
        let lines = asked.question.ask(heap, &setting.lists)?;
        Ok(Some(Trial {
            setting,
            question: &asked.question,
            lines,
            others,
            choices,
        }))
    }

    // That what is known and the lines that decide a row name few enough gaps, and with the row few enough numbers.
    pub fn check_row(&self, row: &[u64]) -> Result<(), Refusal> {
        let mut names = self.setting.known.clone()?;
        names.numbers.extend(row)?;
        for line in self.lines.iter().filter(|line| line.agrees(row)) {
            names.add_cells(&line.cells)?;
            names.add_names(&line.names)?;
        }
        names.check()
    }

    // Looks for the rows under every filling that fits what is known.
    pub fn watch(&self, asked: Vec<Row>) -> Result<Watch, AllocError> {
        let mut watch = Watch {
            listed: self.listed(),
            asked: Watched::all(self.setting.heap, asked)?,
        };
        for filling in self.choices.fillings() {
            if let Some(rows) = self.rows_under(&filling)? {
                watch.look(&rows);
            }
        }
        Ok(watch)
    }

    // The rows that may be sure, in order and each once: of those under one filling that fits, the ones whose numbers all stand somewhere.
    // For a number that stands nowhere another one might stand there as well.
    fn listed(&self) -> Result<Vec<Watched>, Refusal> {
        self.setting.known.check()?;
        let heap = self.setting.heap;
        let rows = self.first_rows()?.ok_or(Refusal::NothingFits)?;
        let mut rows: Vec<Row> = rows
            .into_iter()
            .filter(|row| !row.iter().any(|n| self.others.contains(n)))
            .collect(heap)?;
        rows.sort()?;
        rows.dedup();
        for row in &rows {
            self.check_row(row)?;
        }
        Ok(Watched::all(heap, rows)?)
    }

    // The rows under the first filling that fits what is known, tried in the order of its choices.
    fn first_rows(&self) -> Result<Option<Vec<Row>>, AllocError> {
        let Setting { names, known, .. } = self.setting;
        Choices::in_order(self.setting.heap, &names.gaps, &self.others, known)?
            .fillings()
            .find_map(|filling| self.rows_under(&filling).transpose())
            .transpose()
    }

    // The rows that the question gives under a filling; nothing where that does not fit what is known.
    fn rows_under(&self, filling: &Filling) -> Result<Option<Vec<Row>>, AllocError> {
        let heap = self.setting.heap;
        let book = &self.setting.book;
        let case = Case::of(heap, book, filling)?;
        if !case.holds(book.known) {
            return Ok(None);
        }
        let lists = case.lists(heap, &book.lists)?;
        self.question.ask(heap, &lists).map(Some)
    }
}
