//! The script of the page: what it is given, and the positions, each made of the one before it.

/// It stands in the head of the page, and `shown`, `trees` and `moves` go on with it. What it is
/// given comes after it, as JSON.
pub const SCRIPT: &str = r##"<script>
"use strict";
/* Tokens before the one ahead; bytes of the text before and after it; the most things of a list. */
const BEFORE = 60, NEAR = 2000, MANY = 200;
let data, positions = [], troubles = [], now;
const lost = new Set(), rulesOf = [], rowOf = new Map();

const at = (id) => document.getElementById(id);
const name = (symbol) => data.table.names[symbol];
const names = (symbols) => symbols.map(name).join(" ");
const bodyOf = (rule) => data.table.rules[rule][1];
const first = () => data.record.start.position;
const last = () => first() + positions.length - 1;
const here = () => positions[now - first()];
const following = () => positions[now - first() + 1];
const stateOf = (position) => (position.top ? position.top.state : 0);
const ruleText = (rule) =>
  `${name(data.table.rules[rule][0])}: ${names(bodyOf(rule)) || "(empty)"}`;
const faint = (text) => make("span", { class: "faint" }, text);
const link = (place, text) =>
  make("li", {}, make("a", { href: `#${place}` }, `${place}: ${text}`));
const plain = (text) => text.replace(/^ {2}/gm, "").trimEnd();

function make(tag, attributes, ...children) {
  const element = document.createElement(tag);
  for (const [key, value] of Object.entries(attributes)) element.setAttribute(key, value);
  element.append(...children);
  return element;
}

function ruleName(rule) {
  const line = data.table.lines[rule];
  return line === null ? `rule ${rule}` : `rule ${rule} (line ${line})`;
}

function itemText([rule, dot]) {
  const body = bodyOf(rule);
  return [`${name(data.table.rules[rule][0])}: ${names(body.slice(0, dot))} `,
    ` ${names(body.slice(dot))}`];
}

/* The token at a place, counted from 0; after the last one the end. */
function tokenAt(place) {
  const { count, skipped, symbols } = data.input;
  return place < count ? symbols[place - skipped] : 0;
}

/* The stack is a list of entries, each with the one below it. */
function push(position, node, state) {
  const below = position.top;
  position.top = { node, state, below, depth: below ? below.depth + 1 : 1 };
}

/* A tree without children; each has the number of its leaves. A token has its place. */
const leaf = (symbol, note, place) => ({ symbol, note, place, children: [], leaves: 1 });

function reduce(position, rule) {
  const [symbol] = data.table.rules[rule], note = ruleName(rule);
  const node = { symbol, rule, note, children: [], leaves: 0 };
  for (let left = bodyOf(rule).length; left > 0; left -= 1) {
    const child = position.top.node;
    node.children.push(child);
    node.leaves += child.leaves;
    position.top = position.top.below;
  }
  node.children.reverse();
  return node;
}

/* The tokens that could come at an error, where they are told. */
function expectedText({ expected, token }) {
  if (!expected) return "";
  const [can, unknown] = expected;
  const lines = [`expected in place of ${name(token)}: ${names(can) || "nothing"}`];
  if (unknown.length)
    lines.push(`can't tell, since too many reductions come first: ${names(unknown)}`);
  return lines.join("\n");
}

/* The kinds of steps: how each is written, what it makes of a position, and why it is taken. */
const KINDS = {
  s: {
    text: (step) => `shift ${name(step.token)}`,
    make(position, step, numbers) {
      const place = position.taken++;
      position.counter = Math.max(0, position.counter - 1);
      step.node = leaf(step.token, `@${position.taken}`, place);
      push(position, step.node, numbers.state());
    },
  },
  r: {
    text: (step) => `reduce by ${ruleName(step.node.rule)}, ${ruleText(step.node.rule)}`,
    make(position, step, numbers) {
      step.node = reduce(position, numbers.rule());
      push(position, step.node, numbers.state());
    },
  },
  a: { text: () => "accept", make: (position) => (position.mode = "accepted") },
  e: {
    text: (step) => `error: ${name(step.token)} can't come here`,
    make(position, step, numbers) {
      step.expected = numbers.expected();
      step.reported = position.counter === 0;
      position.errors += step.reported ? 1 : 0;
      Object.assign(position, { counter: 3, mode: "popping" });
    },
    why: (step) => step.reported ? "The error is reported."
      : "It is not reported: fewer than three tokens were shifted since the last error.",
  },
  p: {
    text: (step) => `pop ${name(step.popped.symbol)}`,
    make(position, step) {
      step.popped = position.top.node;
      position.top = position.top.below;
    },
    why: () => `State ${stateOf(here())} can't shift error, so the top entry is popped.`,
  },
  x: {
    text: () => "shift error",
    make(position, step, numbers) {
      step.node = leaf(1, "");
      push(position, step.node, numbers.state());
      position.mode = "running";
    },
    why: () => `State ${stateOf(here())} can shift error.`,
  },
  d: {
    text: (step) => `discard ${name(step.token)}`,
    make: (position) => lost.add(position.taken++),
    why: () => "No token was shifted since the last error, so this one is discarded.",
  },
  f: {
    text: () => "give up",
    make(position, step, numbers) {
      if (position.mode === "running") step.expected = numbers.expected();
      position.mode = "failed";
    },
    why: () => here().cell ? "The end can't be discarded." : "No entry is left to be popped.",
  },
};

const stepText = (step) => KINDS[step.kind].text(step);
const ENDS = { accepted: "The input is accepted.", failed: "The parse has given up." };

/* All positions, each made of the one before it. */
function readPositions() {
  const { start, kinds, rules, states, cells, expected, wanted } = data.record;
  const { mode, counter, errors } = start, { taken } = data.input;
  const rule = rules.values(), state = states.values(), list = wanted.values();
  const numbers = { rule: () => rule.next().value, state: () => state.next().value,
    expected: () => expected[list.next().value] };
  let position = { place: start.position, mode, counter, errors, taken, top: null, step: null };
  const note = "made before this part";
  for (const [symbol, to] of start.stack) push(position, leaf(symbol, note), to);
  positions.push(position);
  for (const kind of kinds) {
    const step = { kind, token: tokenAt(position.taken), place: position.place + 1 };
    position = { ...position, place: step.place, step };
    KINDS[kind].make(position, step, numbers);
    positions.push(position);
    if (kind === "e" || ("pxdf".includes(kind) && !troubles.length)) troubles.push([step]);
    else if ("pxdf".includes(kind)) troubles[troubles.length - 1].push(step);
  }
  cells.forEach((cell, index) => (positions[index].cell = cell === null ? null : data.cells[cell]));
}
"##;
