use crate::fractions::{Frame, Ratios};
use basis_factoring::Factoring;
use basis_factors::Factors;
use basis_factors::fixed_numbers::{MODULUS, Residue, Units, at, put};
use entries::NoMemory;
use std::alloc::Global;

/// Which way numbers are solved for.
#[derive(Clone, Copy)]
pub enum Way {
    /// What the basic columns come to, by numbers of lines.
    Point,
    /// What the lines are worth, by numbers of basic columns.
    Duals,
}

/// A basis over residues, in which the columns go by their own lines.
#[derive(Drop)]
pub struct Modular {
    pub head: Vec<u32>,
    factors: Factors<Residue>,
    low: Vec<u64>,
    high: Vec<u64>,
    rests: Vec<Residue>,
    wide: Vec<i128>,
    wide_low: Vec<i128>,
    sums: Vec<i128>,
}

impl Modular {
    /// The basis of these columns, where it is one over residues too.
    pub fn new(alloc: Global, columns: &Units, head: &[u32]) -> Result<Option<Modular>, NoMemory> {
        let mut basis = Modular {
            head: Vec::from_slice(alloc, head)?,
            factors: Factors::new(alloc),
            low: Vec::new(alloc),
            high: Vec::new(alloc),
            rests: Vec::new(alloc),
            wide: Vec::new(alloc),
            wide_low: Vec::new(alloc),
            sums: Vec::new(alloc),
        };
        let lost = basis.factor(alloc, columns)?;
        Ok(if lost == 0 { Some(basis) } else { None })
    }

    fn factor(&mut self, alloc: Global, columns: &Units) -> Result<usize, NoMemory> {
        let mut factoring: Factoring<Residue> = Factoring::new(alloc);
        factoring.factor(columns, self.head.as_mut_slice(), &mut self.factors)
    }

    /// The exact numbers for these, where they are found: by the modulus, or else by its square.
    pub fn solved(
        &mut self,
        alloc: Global,
        columns: &Units,
        way: Way,
        numbers: &[i128],
    ) -> Result<Option<Ratios>, NoMemory> {
        self.wide.clear();
        self.wide.extend_from_slice(numbers)?;
        self.solve(way)?;
        self.low.clear();
        self.high.clear();
        for rest in &self.rests {
            self.low.push(rest.rest)?;
        }
        if let Some(found) = Frame::single().fractions(alloc, &self.low, &self.high)? {
            if self.is_exact(columns, way, numbers, &found)? {
                return Ok(Some(found));
            }
        }
        self.lift(columns, way)?;
        let Some(found) = Frame::double().fractions(alloc, &self.low, &self.high)? else {
            return Ok(None);
        };
        let is_exact = self.is_exact(columns, way, numbers, &found)?;
        Ok(if is_exact { Some(found) } else { None })
    }

    // Solves for the wide numbers.
    fn solve(&mut self, way: Way) -> Result<(), NoMemory> {
        self.rests.clear();
        for number in &self.wide {
            self.rests.push(Residue::of_wide(*number))?;
        }
        match way {
            Way::Point => self.factors.forward(self.rests.as_mut_slice()),
            Way::Duals => self.factors.backward(self.rests.as_mut_slice()),
        }
        Ok(())
    }

    // Solves for what is left of the numbers when the first solution is taken from them, over the modulus (Dixon 1982).
    fn lift(&mut self, columns: &Units, way: Way) -> Result<(), NoMemory> {
        self.wide_low.clear();
        for rest in &self.low {
            self.wide_low.push(i128::from(*rest))?;
        }
        let left = self.wide.as_mut_slice();
        take(columns, &self.head, way, &self.wide_low, left);
        for number in self.wide.iter_mut() {
            *number = number.checked_div(i128::from(MODULUS)).unwrap_or(0);
        }
        self.solve(way)?;
        self.high.clear();
        for rest in &self.rests {
            self.high.push(rest.rest)?;
        }
        Ok(())
    }

    // Whether ratios solve for the numbers exactly. Those have 78 bits, so a sum over all lines has 95.
    fn is_exact(
        &mut self,
        columns: &Units,
        way: Way,
        numbers: &[i128],
        found: &Ratios,
    ) -> Result<bool, NoMemory> {
        self.sums.clear();
        for number in numbers {
            self.sums.push(number.wrapping_mul(found.den))?;
        }
        let left = self.sums.as_mut_slice();
        take(columns, &self.head, way, &found.numbers, left);
        for number in &self.sums {
            if *number != 0 {
                return Ok(false);
            }
        }
        Ok(true)
    }
}

// Takes a solution from numbers: what its columns, or its lines, come to.
fn take(columns: &Units, head: &[u32], way: Way, solution: &[i128], left: &mut [i128]) {
    for line in 0..head.len() {
        for unit in columns.of(head[line]) {
            let other = unit.place as usize;
            let number = i128::from(unit.number);
            let (from, to) = match way {
                Way::Point => (line, other),
                Way::Duals => (other, line),
            };
            let part = at(solution, from, 0).wrapping_mul(number);
            put(left, to, at(left, to, 0).wrapping_sub(part));
        }
    }
}
