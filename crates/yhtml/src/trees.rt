//! The script of the page: the trees of the stack, as rows and as a drawing.

/// It goes on with what `script` and `shown` begin.
pub const TREES: &str = r##"
/* The heights of a row and of all rows that are in sight, and how many of them are made. In the
   drawing: how many nodes it has, but for those below what was opened, and how many trees; how high
   a level is, how wide a letter, and what is left beside a node. */
const ROW = 24, SIGHT = 480, DRAWN = 40;
const MOST_NODES = 200, MOST_TREES = 100, LEVEL = 64, LETTER = 8.6, SPACE = 16;
let rows = [], active, scrolled = 0, drawn = [], unfolded = new Set(), shapeCount = 0;
const closed = new Set(), opened = new Set(), shapes = new Map();

/* The trees that are drawn: those of the topmost entries of the stack, from the bottom on. */
function drawnTrees() {
  const trees = [];
  for (let entry = here().top; entry && trees.length < MOST_TREES; entry = entry.below)
    trees.unshift(entry.node);
  return trees;
}

/* The nodes whose children are drawn: those that were opened, and others as long as there is room,
   level by level, from the top of the stack on. */
function unfoldedIn(trees) {
  const found = new Set(), waiting = trees.slice().reverse();
  let left = MOST_NODES - trees.length;
  for (const node of waiting) {
    const { length } = node.children, isOpened = opened.has(node);
    if (!length || closed.has(node) || (length > left && !isOpened)) continue;
    if (!isOpened) left -= length;
    found.add(node);
    waiting.push(...node.children);
  }
  return found;
}

const childrenDrawn = (node) => (unfolded.has(node) ? node.children : []);

/* What stands below the name of a node: how many leaves it has where it is folded. */
function noteOf(node) {
  if (node.children.length && !unfolded.has(node))
    return node.leaves === 1 ? "1 leaf" : `${node.leaves} leaves`;
  return node.rule === undefined ? noted(node) : `rule ${node.rule}`;
}

/* How wide nodes are, by themselves and with all that is drawn below them. */
function measure(node, widths) {
  const letters = Math.max(called(node).length, noteOf(node).length);
  const own = letters * LETTER + SPACE;
  let below = 0;
  for (const child of childrenDrawn(node)) below += measure(child, widths);
  widths.set(node, { own, below, all: Math.max(own, below) });
  return Math.max(own, below);
}

/* Puts a node and all below it into the drawing, from the left on: the node over the middle of its
   children, as far as it has room there. */
function placeNode(spot, left, widths) {
  const { own, below, all } = widths.get(spot.node), inside = childrenDrawn(spot.node);
  drawn.push(spot);
  let from = left + (all - below) / 2, ends = [];
  inside.forEach((node, index) => {
    const level = spot.level + 1, of = inside.length;
    const child = { node, parent: spot, level, place: index + 1, of };
    placeNode(child, from, widths);
    from += widths.get(node).all;
    ends = [ends.length ? ends[0] : child.x, child.x];
  });
  const middle = ends.length ? (ends[0] + ends[1]) / 2 : left + all / 2;
  Object.assign(spot, { own, x: Math.min(Math.max(middle, left + own / 2), left + all - own / 2) });
}

function shape(tag, attributes, ...children) {
  const element = document.createElementNS(at("forest").namespaceURI, tag);
  for (const [key, value] of Object.entries(attributes)) element.setAttribute(key, value);
  element.append(...children);
  return element;
}

/* Sets what differs of the attributes of an element: what stays costs nothing. */
function set(element, attributes) {
  for (const [key, value] of Object.entries(attributes))
    if (element.getAttribute(key) !== String(value)) element.setAttribute(key, value);
}

/* The element of a node: its name, and a note below it. It stays as long as the node is drawn. */
function shapeOf(node) {
  if (shapes.has(node)) return shapes.get(node);
  const group = shape("g", { role: "treeitem", id: `node${shapeCount++}` },
    shape("rect", { y: -20, height: 40, rx: 5 }), shape("text", { y: -3 }, called(node)),
    shape("text", { y: 14 }));
  group.onclick = () => fold(node, unfolded.has(node));
  shapes.set(node, group);
  return group;
}

/* Puts the element of a node where it stands now, after another one. */
function drawNode({ node, x, own, level, place, of }, before) {
  const group = shapeOf(node), [rect, , text] = group.children, { step } = here();
  const inner = node.children.length > 0, open = unfolded.has(node), note = noteOf(node);
  const kinds = [step && step.node === node && "new", inner && !open && "folded",
    node === active && "active"];
  set(rect, { x: 3 - own / 2, width: own - 6 });
  set(group, { transform: `translate(${x} ${(level - 0.5) * LEVEL})`, "aria-level": level,
    "aria-posinset": place, "aria-setsize": of, class: kinds.filter(Boolean).join(" "),
    "aria-label": `${called(node)}, ${noted(node)}${inner && !open ? `, ${note} below` : ""}` });
  if (inner) set(group, { "aria-expanded": open });
  if (text.textContent !== note) text.textContent = note;
  if (before.nextSibling !== group) before.after(group);
  return group;
}

/* The node of the drawing that has the focus: where that isn't drawn, the root on top. */
const marked = () => drawn.find(({ node }) => node === active)
  || drawn.findLast(({ level }) => level === 1);

/* Draws what stands in the drawing: the edges, all as one path, and after them the nodes. */
function drawSpots(width) {
  const kept = new Set(drawn.map(({ node }) => node));
  let last = at("edges"), lines = "", deepest = 0;
  for (const [node, group] of shapes) {
    if (kept.has(node)) continue;
    group.remove();
    shapes.delete(node);
  }
  for (const spot of drawn) {
    const { x, level, parent } = spot;
    const from = (level - 1.5) * LEVEL + 20, to = (level - 0.5) * LEVEL - 20;
    if (parent) lines += `M${parent.x} ${from}L${x} ${to}`;
    last = drawNode(spot, last);
    deepest = Math.max(deepest, level);
  }
  set(at("edges"), { d: lines });
  set(at("forest"), { width: Math.ceil(width), height: deepest * LEVEL });
}

function drawForest() {
  const trees = drawnTrees(), widths = new Map(), { top } = here(), of = top ? top.depth : 0;
  let left = 0;
  unfolded = unfoldedIn(trees);
  drawn = [];
  trees.forEach((node, index) => {
    const all = measure(node, widths);
    placeNode({ node, level: 1, place: of - trees.length + index + 1, of }, left, widths);
    left += all;
  });
  drawSpots(left);
  const spot = marked(), more = of - trees.length;
  at("drawing").setAttribute("aria-activedescendant", spot ? shapes.get(spot.node).id : "");
  const are = more === 1 ? "entry below is" : "entries below are";
  at("undrawn").textContent = more ? `${more} ${are} not drawn.` : of ? "" : "The stack is empty.";
}

/* Brings the marked node into sight of the drawing. */
function scrollDrawing() {
  const spot = marked(), box = at("drawing");
  if (!spot) return;
  const { clientWidth, clientHeight, scrollLeft, scrollTop } = box, bottom = spot.level * LEVEL;
  const left = spot.x - spot.own / 2, right = spot.x + spot.own / 2;
  if (left < scrollLeft || right > scrollLeft + clientWidth)
    box.scrollLeft = spot.x - clientWidth / 2;
  if (bottom - LEVEL < scrollTop || bottom > scrollTop + clientHeight)
    box.scrollTop = bottom - (clientHeight + LEVEL) / 2;
}

function drawingKey(event) {
  const spot = marked();
  if (!spot || event.altKey || event.ctrlKey || event.metaKey) return;
  const beside = drawn.filter(({ level }) => level === spot.level), index = beside.indexOf(spot);
  const moves = { ArrowUp: spot.parent, ArrowDown: drawn.find(({ parent }) => parent === spot),
    ArrowLeft: beside[index - 1], ArrowRight: beside[index + 1], Home: drawn[0],
    End: drawn.at(-1) };
  const folds = event.key === "Enter" || event.key === " ";
  if (!folds && !(event.key in moves)) return;
  if (folds && spot.node.children.length) fold(spot.node, unfolded.has(spot.node));
  else if (moves[event.key]) reveal(moves[event.key].node);
  event.preventDefault();
  event.stopPropagation();
}

/* The rows of the trees that aren't folded away, in order. */
function readRows() {
  const nodes = [], waiting = [];
  for (let entry = here().top; entry; entry = entry.below) nodes.push(entry.node);
  nodes.forEach((node, index) => waiting.push([node, 1, nodes.length - index, nodes.length]));
  rows = [];
  while (waiting.length) {
    const [node, level, place, of] = waiting.pop(), { children } = node;
    rows.push({ node, level, place, of });
    for (let index = closed.has(node) ? 0 : children.length; index > 0; index -= 1)
      waiting.push([children[index - 1], level + 1, index, children.length]);
  }
}

function treeRow({ node, level, place, of }, index) {
  const inner = node.children.length > 0, open = inner && !closed.has(node), { step } = here();
  const sign = make("span", { "aria-hidden": "true" }, inner ? "\u25b8\u25be"[Number(open)] : " ");
  const row = make("div", { role: "treeitem", id: `row${index}`, "aria-level": level,
    "aria-posinset": place, "aria-setsize": of });
  row.append(sign, ` ${called(node)}`, faint(`  ${noted(node)}`));
  if (inner) row.setAttribute("aria-expanded", open);
  row.classList.toggle("new", Boolean(step && step.node === node));
  row.classList.toggle("active", node === active);
  row.style.marginLeft = `${Math.min(level - 1, 30)}em`;
  row.onclick = () => fold(node, open);
  return row;
}

/* Only the rows in sight are drawn, but all of them for print. */
function drawRows(all) {
  const wanted = Math.min(Math.floor(scrolled / ROW) - 5, rows.length - DRAWN);
  const tree = at("tree"), from = all ? 0 : Math.max(0, wanted);
  const drawn = rows.slice(from, all ? rows.length : from + DRAWN);
  const style = `padding-top: ${from * ROW}px; height: ${rows.length * ROW}px`;
  const inside = drawn.map((row, index) => treeRow(row, from + index));
  tree.replaceChildren(make("div", { role: "presentation", style }, ...inside));
  tree.setAttribute("aria-activedescendant", `row${rows.findIndex((it) => it.node === active)}`);
}

function reveal(node) {
  readRows();
  const height = rows.findIndex((it) => it.node === node) * ROW;
  const away = height < scrolled || height + ROW > scrolled + SIGHT;
  if (away) scrolled = Math.max(0, Math.min(height - SIGHT / 2, rows.length * ROW - SIGHT));
  active = node;
  drawRows(false);
  drawForest();
  if (away) at("tree").scrollTop = scrolled;
  scrollDrawing();
}

function fold(node, close) {
  (close ? closed : opened).add(node);
  (close ? opened : closed).delete(node);
  reveal(node);
}

function foldAll(close) {
  closed.clear();
  opened.clear();
  if (close) rows.forEach(({ node }) => node.children.length && closed.add(node));
  reveal(active);
}

function treeKey(event) {
  const index = rows.findIndex((it) => it.node === active), row = rows[index];
  if (!row || event.altKey || event.ctrlKey || event.metaKey) return;
  const inner = row.node.children.length > 0, open = inner && !closed.has(row.node);
  const parent = rows.findLastIndex((it, other) => other < index && it.level < row.level);
  const folds = { ArrowRight: inner && !open, ArrowLeft: open, Enter: inner, " ": inner };
  const moves = { ArrowDown: index + 1, ArrowUp: index - 1, ArrowRight: index + 1,
    ArrowLeft: parent, Home: 0, End: rows.length - 1 };
  if (folds[event.key]) fold(row.node, open);
  else if (rows[moves[event.key]]) reveal(rows[moves[event.key]].node);
  if (!(event.key in folds) && !(event.key in moves)) return;
  event.preventDefault();
  event.stopPropagation();
}
"##;
